// Asking the password service.
ghost use Rattle.std.specs.Prelude.{◌≡◌};
ghost use Rattle.session.specs.Query.{asks};

use crate::answer::Answer;
use crate::change::Change;
use crate::{Phase, Session};
use profile::numbers::Refusal;

impl Session {
    // A query under a ticket, in an exchange that has sent so many challenges.
    pub(crate) fn asks(self, ticket: u64, sent: u8, starts: bool, length: usize) -> Change
        ensures { result ≡ asks self ticket sent starts length }
    {
        if ticket == Session::UNISSUED {
            return self.refuses(Refusal::Exhausted);
        }
        self.moves(
            Phase::Waiting { ticket, sent },
            Answer::Query {
                ticket,
                starts,
                length,
            },
        )
    }
}
