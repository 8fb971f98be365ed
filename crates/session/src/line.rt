// A line, by the session's phase. The offer and the ticket are two parameters, since only some steps have both.
ghost use Rattle.std.specs.Prelude.{◌≡◌};
ghost use Rattle.session.specs.Line.{at_rest, awaiting, on_line};

use crate::change::Change;
use crate::view::{Offer, View};
use crate::{Phase, Session};
use profile::Reply;
use profile::numbers::Refusal;

impl Session {
    // Where no exchange runs.
    fn at_rest(self, view: View, offer: Option<Offer>, ticket: u64) -> Change
        ensures { result ≡ at_rest self view offer ticket }
    {
        match view {
            View::Command(command) => self.on_command(command, offer, ticket),
            View::Response(_) | View::Unread => self.says(Reply::Syntax),
        }
    }

    // Where a response is awaited.
    fn awaiting(self, sent: u8, view: View, ticket: u64) -> Change
        ensures { result ≡ awaiting self sent view ticket }
    {
        match view {
            View::Response(response) => self.on_response(sent, response, ticket),
            View::Command(_) | View::Unread => self.fails(Reply::Syntax),
        }
    }

    pub(crate) fn on_line(self, view: View, offer: Option<Offer>, ticket: u64) -> Change
        ensures { result ≡ on_line self.phase self view offer ticket }
    {
        match self.phase {
            Phase::Idle | Phase::SignedIn => self.at_rest(view, offer, ticket),
            Phase::Awaiting { sent } => self.awaiting(sent, view, ticket),
            Phase::Waiting { .. } => self.refuses(Refusal::Waiting),
        }
    }
}
