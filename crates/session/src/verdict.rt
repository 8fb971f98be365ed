// A verdict on the ticket that a session waits on.
ghost use Rattle.std.specs.Prelude.{◌≡◌};
ghost use Rattle.session.specs.Session.{named};
ghost use Rattle.session.specs.Verdict.{graphic, is_name, given, challenged, accepted, on_verdict};

use crate::answer::Answer;
use crate::change::Change;
use crate::{Phase, Session, Stepped};
use profile::Reply;
use profile::numbers::{Refusal, Verdict};

// An octet of a name.
pub fn is_graphic(x: u8) -> bool
    ensures { result ≡ graphic x }
{
    x.is_ascii_graphic()
}

#[tactic(auto, unfolding(octets::specs::Lists::one_to))]
fn is_name(bytes: &[u8]) -> bool
    ensures { result ≡ is_name bytes.now }
{
    (1..=Session::LONGEST_NAME).contains(&bytes.len()) && bytes.iter().all(|x| is_graphic(*x))
}

// Whether a verdict has the data that it may have.
fn has_valid_data(verdict: Verdict, bytes: &[u8]) -> bool
    ensures { result ≡ given verdict bytes.now }
{
    match verdict {
        Verdict::Challenge => bytes.len() <= Session::LONGEST_CHALLENGE,
        Verdict::Success => is_name(bytes),
        Verdict::Rejected | Verdict::Temporary | Verdict::Transition | Verdict::Weak =>
            bytes.is_empty(),
    }
}

impl Session {
    // One challenge more, after so many.
    fn challenged(self, sent: u8) -> Change
        ensures { result ≡ challenged self sent }
    {
        if sent < Session::MOST_CHALLENGES {
            self.moves(Phase::Awaiting { sent: sent + 1 }, Answer::Challenge)
        } else {
            self.fails(Reply::Temporary)
        }
    }

    // The name of who signed in.
    fn named(mut self, name: &[u8]) -> Session
        ensures { result ≡ named self name.now }
    {
        self.name = octets::padded_to(name);
        self
    }

    // A verdict with its data in order.
    fn accepted(self, sent: u8, verdict: Verdict, bytes: &[u8]) -> Stepped
        ensures { result ≡ accepted self sent verdict bytes.now }
    {
        match verdict {
            Verdict::Challenge => self.stepped(self.challenged(sent)),
            Verdict::Success => self
                .named(bytes)
                .stepped(self.moves(Phase::SignedIn, Answer::Reply(Reply::Success))),
            Verdict::Rejected => self.stepped(self.fails(Reply::Rejected)),
            Verdict::Temporary => self.stepped(self.fails(Reply::Temporary)),
            Verdict::Transition => self.stepped(self.fails(Reply::Transition)),
            Verdict::Weak => self.stepped(self.fails(Reply::Weak)),
        }
    }

    #[tactic(auto, unfolding(crate::specs::Verdict::on_verdict))]
    pub(crate) fn on_verdict(self, sent: u8, verdict: Verdict, bytes: &[u8]) -> Stepped
        ensures { result ≡ on_verdict self sent verdict bytes.now }
    {
        if has_valid_data(verdict, bytes) {
            self.accepted(sent, verdict, bytes)
        } else {
            self.stepped(self.refuses(Refusal::NotListed))
        }
    }
}
