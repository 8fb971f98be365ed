// The numbers of verdicts, refusals, answers and identities, as a host in C passes and gets them.
ghost use Rattle.std.specs.Prelude.{◌≡◌, Some};
ghost use Rattle.profile.specs.Numbers.{verdict_of, verdict_number, printed_verdict, refusal_number, kind_number, identity_number};

use std::fmt;

// What the password service says of a ticket (document 01: verdict).
#[derive(Clone, Copy, Debug, PartialEq, Eq)]
pub enum Verdict {
    Challenge,
    Success,
    Rejected,
    Temporary,
    Transition,
    Weak,
}

// Why a call is refused (document 01: No.).
#[derive(Clone, Copy, Debug, PartialEq, Eq)]
pub enum Refusal {
    ShortBuffer = 1,
    NoConnection,
    Waiting,
    NoTicket,
    NotListed,
    Full,
    Exhausted,
    BadName,
    NamePresent,
    TableFull,
    Sealed,
    NotTaken = 20,
}

// What a line is answered with (document 01: passed on, a question, a reply).
#[derive(Clone, Copy, Debug, PartialEq, Eq)]
pub enum Kind {
    Forward,
    Query,
    Answered,
}

// The identity to relay with a line that is passed on: it is no MAIL; "<>"; none; an address.
#[derive(Clone, Copy, Debug, PartialEq, Eq)]
pub enum Identity {
    NoMail,
    Null,
    Absent,
    Address,
}

impl TryFrom<u64> for Verdict {
    type Error = Refusal;

    ghost try_from_gives = { λ n r. r ≡ verdict_of n };

    // The verdict of a number; any number may be asked.
    fn try_from(number: u64) -> Result<Verdict, Refusal> {
        match number {
            0 => Ok(Verdict::Challenge),
            1 => Ok(Verdict::Success),
            2 => Ok(Verdict::Rejected),
            3 => Ok(Verdict::Temporary),
            4 => Ok(Verdict::Transition),
            5 => Ok(Verdict::Weak),
            _ => Err(Refusal::NotListed),
        }
    }
}

impl fmt::Display for Verdict {
    ghost output = { λ v. Some (printed_verdict v) };

    fn fmt<W: fmt::Write>(&self, f: &mut fmt::Formatter<W>) -> fmt::Result {
        f.write_str(match self {
            Verdict::Challenge => "challenge",
            Verdict::Success => "success",
            Verdict::Rejected => "rejected",
            Verdict::Temporary => "temporary",
            Verdict::Transition => "transition",
            Verdict::Weak => "weak",
        })
    }
}

impl From<Verdict> for u64 {
    ghost from_gives = { λ v n. n ≡ verdict_number v };

    fn from(verdict: Verdict) -> u64 {
        verdict as u64
    }
}

impl From<Refusal> for u64 {
    ghost from_gives = { λ r n. n ≡ refusal_number r };

    fn from(refusal: Refusal) -> u64 {
        refusal as u64
    }
}

impl From<Kind> for u64 {
    ghost from_gives = { λ k n. n ≡ kind_number k };

    fn from(kind: Kind) -> u64 {
        kind as u64
    }
}

impl From<Identity> for u64 {
    ghost from_gives = { λ i n. n ≡ identity_number i };

    fn from(identity: Identity) -> u64 {
        identity as u64
    }
}
