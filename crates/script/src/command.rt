// What a script line says.
ghost use Rattle.std.specs.Prelude.{◌≡◌, ◌+◌, ◌≤◌, length, drop};
ghost use Rattle.script.specs.Command.{command, opening, call, arguments, made, fitting, hex_text, digits_of};

use crate::hex::is_hex;
use crate::kept::Rest;
use crate::number::read_number;
use crate::word::{Word, takes_text, word_of};
use octets::reader::end;
use profile::Profile;
use profile::numbers::Verdict;

// A call. The text of a line, or of a verdict, is what the script line has from an index on.
#[derive(Clone, Copy, Debug, PartialEq, Eq)]
pub enum Command {
    Open {
        profile: Profile,
        protected: bool,
    },
    Line {
        connection: u64,
        from: usize,
    },
    Hexline {
        connection: u64,
        from: usize,
    },
    Verdict {
        ticket: u64,
        verdict: Verdict,
        from: usize,
    },
    Ended {
        connection: u64,
    },
    Who {
        connection: u64,
    },
    Close {
        connection: u64,
    },
}

// The call that a script line says, if it says one; the rest of the line is not kept. Two parameters, since the octets that are kept are lent.
#[tactic(auto, unfolding(crate::specs::Command::command))]
pub fn read(kept: &[u8], rest: Rest) -> Option<Command>
    ensures { result ≡ command kept.now rest }
{
    opening(kept).or_else(|| call(kept, rest))
}

// A line with the word open.
#[tactic(auto, using(crate::proofs::Texts::told_opening))]
fn opening(kept: &[u8]) -> Option<Command>
    ensures { result ≡ opening kept.now }
{
    let (profile, protected) = match kept {
        b"open smtp protected" => (Profile::Smtp, true),
        b"open smtp plain" => (Profile::Smtp, false),
        b"open pop3 protected" => (Profile::Pop3, true),
        b"open pop3 plain" => (Profile::Pop3, false),
        _ => return None,
    };
    Some(Command::Open { profile, protected })
}

// A word, a space and its arguments.
#[tactic(auto, using(crate::proofs::Parts::parts))]
fn call(kept: &[u8], rest: Rest) -> Option<Command>
    ensures { result ≡ call kept.now rest }
{
    let to = octets::find(kept, 0, b' ');
    let word = word_of(octets::part(kept, 0, to))?;
    arguments(word, kept, to + 1, rest)
}

// The arguments of a word, from an index on.
#[tactic(auto, using(crate::proofs::Parts::parts))]
fn arguments(word: Word, kept: &[u8], at: usize, rest: Rest) -> Option<Command>
    requires { at ≤ length kept.now + 1 }
    ensures { result ≡ arguments word at (drop at kept.now) rest }
{
    let to = digits_end(word, kept, at);
    let n = read_number(octets::part(kept, at, to))?;
    let from = to + 1;
    if !fits(word, octets::part(kept, from, kept.len()), rest) {
        return None;
    }
    Some(made(word, n, from))
}

// Where the number ends: at a space if a text may follow, and at the line's end.
fn digits_end(word: Word, kept: &[u8], at: usize) -> usize
    ensures { result ≡ at + length (digits_of word (drop at kept.now)) }
{
    if takes_text(word) {
        octets::find(kept, at, b' ')
    } else {
        end(kept, at)
    }
}

// Whether a word may have such a text.
fn fits(word: Word, text: &[u8], rest: Rest) -> bool
    ensures { result ≡ fitting word text.now rest }
{
    match word {
        Word::Hexline => is_hex_text(text, rest),
        _ => true,
    }
}

// Whether a text is pairs of hexadecimal digits.
#[tactic(auto, unfolding(crate::specs::Command::hex_text))]
fn is_hex_text(text: &[u8], rest: Rest) -> bool
    ensures { result ≡ hex_text text.now rest }
{
    is_hex(text) && rest.digits && (text.len() % 2 + rest.parity % 2) % 2 == 0
}

// The call of a word with a number and a text from an index on.
fn made(word: Word, n: u64, from: usize) -> Command
    ensures { result ≡ made word n from }
{
    match word {
        Word::Line => Command::Line {
            connection: n,
            from,
        },
        Word::Hexline => Command::Hexline {
            connection: n,
            from,
        },
        Word::Verdict(verdict) => Command::Verdict {
            ticket: n,
            verdict,
            from,
        },
        Word::Ended => Command::Ended { connection: n },
        Word::Who => Command::Who { connection: n },
        Word::Close => Command::Close { connection: n },
    }
}
