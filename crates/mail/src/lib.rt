// The MAIL line: its form, and what its AUTH parameter says.
#![tactic(auto)]

ghost use Rattle.std.specs.Prelude.{◌≡◌, false, length, drop};
ghost use Rattle.xtext.specs.Xtext.{decoded, decoded_into};
ghost use Rattle.mail.specs.Mail.{mail, mail_at, address_text};
ghost use Rattle.mail.specs.Private.{read_parameters};
ghost use Rattle.mail.specs.declared.Mail.TheVariants.{Absent};

mod address;
mod parameter;
pub mod reader;

use octets::DecodeError;
use octets::reader::decode_part;
use parameter::Parameter;
use xtext::Xtext;

// What a MAIL line says of the identity to relay. Absent: it has no AUTH parameter. Null: AUTH is "<>". Address: the xtext of AUTH's address
// stands at these indices of the line and decodes to so many octets.
#[derive(Clone, Copy, Debug, PartialEq, Eq)]
pub enum Mail {
    Absent,
    Null,
    Address {
        from: usize,
        to: usize,
        length: usize,
    },
}

// Reads a MAIL line, through a reader. None: it is not of the form.
#[tactic(auto, unfolding(crate::specs::Mail::mail))]
pub fn read_mail(line: &[u8]) -> Option<Mail>
    ensures { result ≡ mail line.now }
{
    reader::read_at(line, 0)
}

// Decodes the address that a reading of the line found to the start of out; nothing where it found none.
pub fn decode_address(
    line: &[u8],
    found: Option<Mail>,
    out: &mut [u8],
) -> Result<usize, DecodeError>
    ensures { (result ≡ decoded (address_text found line.now) (length out.old)) × (out.new ≡ decoded_into (address_text found line.now) out.old) }
{
    match found {
        Some(Mail::Address { from, to, .. }) => decode_part::<Xtext>(line, from, to, out),
        _ => decode_part::<Xtext>(line, 0, 0, out),
    }
}

// Reads a MAIL line that begins at an index.
fn mail_from(line: &[u8], at: usize) -> Option<Mail>
    ensures { result ≡ mail_at line.now at }
{
    if line.len() < at || !octets::is_word(octets::part(line, at, at + 11), b"MAIL FROM:<") {
        return None;
    }
    let end = octets::find(line, at + 11, b'>');
    if line.len() <= end {
        return None;
    }
    read_parameters(line, end + 1)
}

// Reads the parameters, each after one space, from an index on to the line's end: what AUTH says. Neither AUTH nor SUBMITTER may come twice. A parameter's
// reading says where the next begins, so no iterator over the line is plainer.
#[tactic(auto, using(crate::proofs::Lines::turns))]
fn read_parameters(line: &[u8], at: usize) -> Option<Mail>
    ensures { result ≡ read_parameters Absent false at (drop at line.now) }
{
    let mut auth = Mail::Absent;
    let mut submitter = false;
    let mut i = at;
    while let Some(x) = line.get(i) {
        if *x != b' ' {
            return None;
        }
        let read = parameter::read(line, i + 1)?;
        i = read.at;
        match read.answer {
            Parameter::Auth(said) if auth == Mail::Absent => auth = said,
            Parameter::Submitter if !submitter => submitter = true,
            Parameter::Other => {}
            _ => return None,
        }
    }
    Some(auth)
}
