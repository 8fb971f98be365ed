// Whether a value in xtext stands for "<>" or for an address, told in one pass, with no octets kept.
ghost use Rattle.std.specs.Prelude.{◌≡◌, drop};
ghost use Rattle.octets.specs.Lists.{before};
ghost use Rattle.mail.specs.Mail.{space, spaced};
ghost use Rattle.mail.specs.Private.{step, at_end, judged};

use crate::Mail;
use octets::reader::Reading;
use xtext::Character;

// What the octets read so far are: none; "<"; "<>"; others, with no "@" that has an octet before and after it; such with an "@" at the end
// that has one before it; an address.
#[derive(Clone, Copy)]
enum State {
    Start,
    Less,
    Null,
    Inner,
    At,
    Address,
}

// Whether the line, or what stands before a space, ends at an index.
pub(crate) fn is_end(line: &[u8], i: usize) -> bool
    ensures { result ≡ spaced (drop i line.now) }
{
    matches!(line.get(i), None | Some(b' '))
}

// After one more octet.
fn step(s: State, x: u8) -> State
    ensures { result ≡ step s x }
{
    match (s, x) {
        (State::Start, b'<') => State::Less,
        (State::Less, b'>') => State::Null,
        (State::Start, _) => State::Inner,
        (State::At | State::Address, _) => State::Address,
        (_, b'@') => State::At,
        _ => State::Inner,
    }
}

// At the end of a value that stands from one index up to another and decodes to so many octets: what it stands for, with where it ends.
fn at_end(s: State, from: usize, to: usize, length: usize) -> Option<Reading<Mail>>
    ensures { result ≡ at_end s from to length }
{
    let answer = match s {
        State::Null => Mail::Null,
        State::Address => Mail::Address { from, to, length },
        _ => return None,
    };
    Some(Reading { answer, at: to })
}

// Reads the value from an index on up to a space or the line's end. A space is no character of xtext. None: the value is neither of the two.
// A character's reading says where the next begins, so no iterator over the line is plainer.
#[tactic(auto, using(crate::proofs::Values::turns))]
pub(crate) fn judge(line: &[u8], from: usize) -> Option<Reading<Mail>>
    ensures { result ≡ judged from (before space (drop from line.now)) }
{
    let mut s = State::Start;
    let mut length = 0;
    let mut i = from;
    while let Character::Octet { value, next } = xtext::character_at(line, i) {
        s = step(s, value);
        length += 1;
        i = next;
    }
    if !is_end(line, i) {
        return None;
    }
    at_end(s, from, i, length)
}
