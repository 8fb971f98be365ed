// One connection's session: a step takes the session and one event, and hands it back as the next session with its answer.
//
// Whoever keeps a session reads a line with it (`read`), looks up the mechanism that the view names (`View::mechanism`), and steps (`line`).
// Then it decodes what the line hands on (`View::decode_response_unchecked` for a query, whose response the reading found to be base64, or
// `View::decode_response`, which looks again; `View::decode_address` for a MAIL), or writes what the client hears (`Answer::say`). A verdict is a
// step of its own (`verdict`), and so is the end of a transaction (`mail_ended`).
#![tactic(auto)]

ghost use Rattle.std.specs.Prelude.{◌≡◌, length};
ghost use Rattle.octets.specs.Answers.{written, encoded};
ghost use Rattle.session.specs.Session.{opened, signed_in, name_of};
ghost use Rattle.session.specs.View.{view};
ghost use Rattle.session.specs.Line.{after_line};
ghost use Rattle.session.specs.Verdict.{after_verdict};
ghost use Rattle.session.specs.MailEnded.{after_mail};

use answer::Answer;
use lines::command::read_command;
use lines::response::read_response;
use profile::Profile;
use profile::numbers::{Refusal, Verdict};
use view::{Offer, View};

pub mod answer;
mod auth;
mod change;
mod command;
mod line;
mod mail_line;
mod query;
mod response;
pub mod verdict;
pub mod view;

// Where a session stands: at most one of signed in, awaiting a response and waiting on a ticket. `sent` counts the exchange's challenges.
#[derive(Clone, Copy, Debug, PartialEq, Eq)]
pub enum Phase {
    Idle,
    SignedIn,
    Awaiting { sent: u8 },
    Waiting { ticket: u64, sent: u8 },
}

// A connection's session. The name is padded with NUL; where nobody is signed in it is NUL alone.
#[derive(Clone, Copy, Debug, PartialEq, Eq)]
pub struct Session {
    pub name: [u8; Session::LONGEST_NAME],
    pub profile: Profile,
    pub protected: bool,
    pub greeted: bool,
    pub transaction: bool,
    pub phase: Phase,
}

// The next session, and the answer.
#[derive(Clone, Copy, Debug, PartialEq, Eq)]
pub struct Stepped {
    pub session: Session,
    pub answer: Answer,
}

impl Session {
    // An exchange sends at most so many challenges.
    pub const MOST_CHALLENGES: u8 = 16;

    // A verdict's challenge, and its name, have at most so many octets.
    pub const LONGEST_CHALLENGE: usize = 9210;

    pub const LONGEST_NAME: usize = 64;

    // The number that is never issued.
    pub const UNISSUED: u64 = u64::MAX;

    // The session of a connection that was just opened.
    pub fn opened(profile: Profile, protected: bool) -> Session
        ensures { result ≡ opened profile protected }
    {
        Session {
            name: [0; Session::LONGEST_NAME],
            profile,
            protected,
            greeted: false,
            transaction: false,
            phase: Phase::Idle,
        }
    }

    pub fn is_signed_in(self) -> bool
        ensures { result ≡ signed_in self.phase }
    {
        matches!(self.phase, Phase::SignedIn)
    }

    // Writes the name to the start of out; nothing where nobody is signed in. Where it does not fit, out is left as it is.
    #[tactic(auto, using(crate::proofs::Names::kept_name), unfolding(crate::specs::Session::name_of))]
    pub fn write_name(self, out: &mut [u8]) -> Option<usize>
        ensures { (result ≡ encoded (name_of self) (length out.old) 0) × (out.new ≡ written out.old 0 (name_of self)) }
    {
        let end = octets::find(&self.name, 0, 0);
        octets::write(&self.name[..end], out, 0)
    }

    // What the session sees of a line.
    #[tactic(auto, unfolding(crate::specs::View::view_in))]
    pub fn read(self, line: &[u8]) -> View
        ensures { result ≡ view self line.now }
    {
        match self.phase {
            Phase::Idle | Phase::SignedIn => View::Command(read_command(self.profile, line)),
            Phase::Awaiting { .. } => View::Response(read_response(self.profile, line)),
            Phase::Waiting { .. } => View::Unread,
        }
    }

    // A line, as the session sees it; what the server has of the mechanism that it names; the ticket that a query is issued under.
    #[tactic(auto, unfolding(crate::specs::Line::after_line))]
    pub fn line(self, view: View, offer: Option<Offer>, ticket: u64) -> Stepped
        ensures { result ≡ after_line self view offer ticket }
    {
        self.stepped(self.on_line(view, offer, ticket))
    }

    // A verdict on a ticket, with its data: a challenge's octets or a name.
    #[tactic(auto, unfolding(crate::specs::Verdict::after_verdict))]
    pub fn verdict(self, ticket: u64, verdict: Verdict, bytes: &[u8]) -> Stepped
        ensures { result ≡ after_verdict self ticket verdict bytes.now }
    {
        match self.phase {
            Phase::Waiting {
                ticket: issued,
                sent,
            } if issued == ticket => self.on_verdict(sent, verdict, bytes),
            _ => self.stepped(self.refuses(Refusal::NoTicket)),
        }
    }

    // The transaction is over.
    pub fn mail_ended(mut self) -> Session
        ensures { result ≡ after_mail self }
    {
        self.transaction = false;
        self
    }
}
