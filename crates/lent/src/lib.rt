// A session record that a host in Rattle lends and has updated: the same steps as Session's, which take the record by value and hand it back.
// "A host in Rattle may also lend one session record and have that record updated by the same step" (document 01).
#![tactic(auto)]

ghost use Rattle.std.specs.Prelude.{◌≡◌};
ghost use Rattle.session.specs.Line.{after_line};
ghost use Rattle.session.specs.Verdict.{after_verdict};
ghost use Rattle.session.specs.MailEnded.{after_mail};

use profile::numbers::Verdict;
use session::Session;
use session::answer::Answer;
use session::view::{Offer, View};

// A line, as the session sees it.
pub fn line(s: &mut Session, view: View, offer: Option<Offer>, ticket: u64) -> Answer
    ensures { (result ≡ (after_line s.old view offer ticket).answer) × (s.new ≡ (after_line s.old view offer ticket).session) }
{
    let stepped = s.line(view, offer, ticket);
    *s = stepped.session;
    stepped.answer
}

// A verdict on a ticket, with its data.
pub fn verdict(s: &mut Session, ticket: u64, verdict: Verdict, bytes: &[u8]) -> Answer
    ensures { (result ≡ (after_verdict s.old ticket verdict bytes.now).answer) × (s.new ≡ (after_verdict s.old ticket verdict bytes.now).session) }
{
    let stepped = s.verdict(ticket, verdict, bytes);
    *s = stepped.session;
    stepped.answer
}

// The transaction is over.
pub fn mail_ended(s: &mut Session)
    ensures { s.new ≡ after_mail s.old }
{
    *s = s.mail_ended();
}
