// What a call gives, in numbers; a refused one its refusal's number alone.
ghost use Rattle.std.specs.Prelude.{◌≡◌};
ghost use Rattle.server.specs.Outcome.{refused};
ghost use Rattle.umbrelnic.specs.Given.{opened_of, line_numbers, line_answer_of, said_numbers, said_of, borne_of};

use crate::{Borne, LineAnswer, Opened, Said};
use profile::numbers::Refusal;
use session::answer::Numbers;

impl From<Refusal> for Opened {
    ghost from_gives = { λ r given. given ≡ opened_of (refused r) };

    fn from(refusal: Refusal) -> Opened {
        Opened {
            refusal: u64::from(refusal),
            connection: 0,
        }
    }
}

impl From<Refusal> for LineAnswer {
    ghost from_gives = { λ r given. given ≡ line_answer_of (refused r) };

    fn from(refusal: Refusal) -> LineAnswer {
        LineAnswer {
            refusal: u64::from(refusal),
            kind: 0,
            ticket: 0,
            starts: 0,
            length: 0,
            identity: 0,
        }
    }
}

impl From<Refusal> for Said {
    ghost from_gives = { λ r given. given ≡ said_of (refused r) };

    fn from(refusal: Refusal) -> Said {
        Said {
            refusal: u64::from(refusal),
            length: 0,
        }
    }
}

impl From<Refusal> for Borne {
    ghost from_gives = { λ r given. given ≡ borne_of (refused r) };

    fn from(refusal: Refusal) -> Borne {
        Borne {
            refusal: u64::from(refusal),
            signed_in: 0,
            length: 0,
        }
    }
}

// The numbers of an answer, as line and verdict give them.
impl From<Numbers> for LineAnswer {
    ghost from_gives = { λ n given. given ≡ line_numbers n };

    fn from(numbers: Numbers) -> LineAnswer {
        LineAnswer {
            refusal: numbers.refusal,
            kind: numbers.kind,
            ticket: numbers.ticket,
            starts: numbers.starts,
            length: numbers.length,
            identity: numbers.identity,
        }
    }
}

impl From<Numbers> for Said {
    ghost from_gives = { λ n given. given ≡ said_numbers n };

    fn from(numbers: Numbers) -> Said {
        Said {
            refusal: numbers.refusal,
            length: numbers.length,
        }
    }
}
