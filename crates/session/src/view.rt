// What a session's step is handed of a line, and what the line hands on.
ghost use Rattle.std.specs.Prelude.{◌≡◌, length};
ghost use Rattle.base64text.specs.Base64.{decoded, decoded_into, unchecked_into};
ghost use Rattle.xtext.specs.Xtext as Xtext;
ghost use Rattle.lines.specs.Mechanism.{padded};
ghost use Rattle.session.specs.Octets.{auth_in, mail_in, mechanism_text, response_text, relay_text};

use base64text::Base64;
use lines::auth::{Auth, decode_initial, decode_initial_unchecked, name_at};
use lines::command::Command;
use lines::mechanism::LONGEST_MECHANISM;
use lines::response::ResponseError;
use mail::Mail;
use octets::DecodeError;
use octets::reader::decode_at;

// A line as a session sees it, with where things stand and how long they decode to, and no octets: a command where no exchange runs, a
// response where one is awaited. While a ticket waits a line is not read.
#[derive(Clone, Copy, Debug, PartialEq, Eq)]
pub enum View {
    Command(Command),
    Response(Result<usize, ResponseError>),
    Unread,
}

// What the server has of the mechanism that an AUTH line names.
#[derive(Clone, Copy, Debug, PartialEq, Eq)]
pub struct Offer {
    pub client_first: bool,
    pub needs_protection: bool,
}

impl View {
    // The AUTH line, and the MAIL line, that the view is of; any other has no reading of one.
    fn auth(self) -> Option<Auth>
        ensures { result ≡ auth_in self }
    {
        match self {
            View::Command(Command::Auth(auth)) => auth,
            _ => None,
        }
    }

    fn mail(self) -> Option<Mail>
        ensures { result ≡ mail_in self }
    {
        match self {
            View::Command(Command::Mail(mail)) => mail,
            _ => None,
        }
    }

    // The mechanism that the line names, in capitals and in twenty octets; NUL alone where it names none.
    pub fn mechanism(self, line: &[u8]) -> [u8; LONGEST_MECHANISM]
        ensures { result ≡ padded (mechanism_text self line.now) }
    {
        name_at(line, self.auth())
    }

    // Decodes the response that the line has to the start of out.
    pub fn decode_response(self, line: &[u8], out: &mut [u8]) -> Result<usize, DecodeError>
        ensures { (result ≡ decoded (response_text self line.now) (length out.old)) × (out.new ≡ decoded_into (response_text self line.now) out.old) }
    {
        match self {
            View::Response(_) => decode_at::<Base64>(line, 0, out),
            _ => decode_initial(line, self.auth(), out),
        }
    }

    // The same where the view is this line's own and the answer is a query, so that the response was measured and is base64: in one walk, which does
    // not look at its form.
    pub fn decode_response_unchecked(self, line: &[u8], out: &mut [u8])
        ensures { out.new ≡ unchecked_into (response_text self line.now) out.old }
    {
        match self {
            View::Response(_) => base64text::decode_unchecked(line, out),
            _ => decode_initial_unchecked(line, self.auth(), out),
        }
    }

    // Decodes the address that the line has to the start of out.
    pub fn decode_address(self, line: &[u8], out: &mut [u8]) -> Result<usize, DecodeError>
        ensures { (result ≡ Xtext.decoded (relay_text self line.now) (length out.old)) × (out.new ≡ Xtext.decoded_into (relay_text self line.now) out.old) }
    {
        mail::decode_address(line, self.mail(), out)
    }
}
