// What a step makes of a session.
ghost use Rattle.std.specs.Prelude.{◌≡◌};
ghost use Rattle.session.specs.Change.{stays, moves, refuses, says, fails, forwards, changed, stepped};

use crate::answer::Answer;
use crate::{Phase, Session, Stepped};
use profile::Reply;
use profile::numbers::{Identity, Refusal};

// What a step makes of a session, but for its name, and what it gives.
#[derive(Clone, Copy, Debug, PartialEq, Eq)]
pub(crate) struct Change {
    pub greeted: bool,
    pub transaction: bool,
    pub phase: Phase,
    pub answer: Answer,
}

impl Session {
    // Another phase, and nothing else changes.
    pub(crate) fn moves(self, phase: Phase, answer: Answer) -> Change
        ensures { result ≡ moves self phase answer }
    {
        Change {
            greeted: self.greeted,
            transaction: self.transaction,
            phase,
            answer,
        }
    }

    // Nothing changes.
    pub(crate) fn stays(self, answer: Answer) -> Change
        ensures { result ≡ stays self answer }
    {
        self.moves(self.phase, answer)
    }

    pub(crate) fn refuses(self, refusal: Refusal) -> Change
        ensures { result ≡ refuses self refusal }
    {
        self.stays(Answer::Refused(refusal))
    }

    pub(crate) fn says(self, reply: Reply) -> Change
        ensures { result ≡ says self reply }
    {
        self.stays(Answer::Reply(reply))
    }

    // The exchange ends, and nobody is signed in.
    pub(crate) fn fails(self, reply: Reply) -> Change
        ensures { result ≡ fails self reply }
    {
        self.moves(Phase::Idle, Answer::Reply(reply))
    }

    // A line that is no MAIL is passed on.
    pub(crate) fn forwards(self, greeted: bool, transaction: bool) -> Change
        ensures { result ≡ forwards self greeted transaction }
    {
        let answer = Answer::Forward {
            identity: Identity::NoMail,
            length: 0,
        };
        Change {
            greeted,
            transaction,
            ..self.stays(answer)
        }
    }

    // The next session: profile, protection and name are copied.
    pub(crate) fn changed(self, change: Change) -> Session
        ensures { result ≡ changed self change }
    {
        Session {
            greeted: change.greeted,
            transaction: change.transaction,
            phase: change.phase,
            ..self
        }
    }

    // The next session with the answer.
    pub(crate) fn stepped(self, change: Change) -> Stepped
        ensures { result ≡ stepped self change }
    {
        Stepped {
            session: self.changed(change),
            answer: change.answer,
        }
    }
}
