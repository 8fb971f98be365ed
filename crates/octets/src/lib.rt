// What every reading and writing of octets shares: the part of a line that is read, the forms of text, and their answers.
#![tactic(auto)]

ghost use Rattle.std.specs.Prelude.{◌≡◌, ◌+◌, length, drop, Some};
ghost use Rattle.std.proofs.Math.Seq.{slice};
ghost use Rattle.octets.specs.Answers.{printed, written, encoded};
ghost use Rattle.octets.specs.Ascii.{capital, capitals};
ghost use Rattle.octets.specs.Lists.{same, before, padded_to};

pub mod form;
pub mod reader;

use std::error::Error;
use std::fmt;

// Why a text is not decoded. Short: the buffer has not as many octets as the text stands for.
#[derive(Clone, Copy, Debug, PartialEq, Eq)]
pub enum DecodeError {
    Malformed,
    Short,
}

impl fmt::Display for DecodeError {
    ghost output = { λ e. Some (printed e) };

    fn fmt<W: fmt::Write>(&self, f: &mut fmt::Formatter<W>) -> fmt::Result {
        f.write_str(match self {
            DecodeError::Malformed => "malformed",
            DecodeError::Short => "short",
        })
    }
}

impl Error for DecodeError {}

// The octets of a line from one index up to, not including, another, as far as the line has them.
#[tactic(auto, using(crate::proofs::Lists::part_is))]
pub fn part(line: &[u8], from: usize, to: usize) -> &[u8]
    ensures { result.now ≡ slice from to line.now }
{
    let end = to.min(line.len());
    &line[from.min(end)..end]
}

// The index of the first x from index at on, and the line's end where there is none. Over indices: position over a part of the line is
// compiled to a step more for each octet.
#[tactic(auto, using(crate::proofs::Chains::loops))]
pub fn find(line: &[u8], at: usize, x: u8) -> usize
    ensures { result ≡ at + length (before x (drop at line.now)) }
{
    for i in at..line.len() {
        if line[i] == x {
            return i;
        }
    }
    line.len().max(at)
}

// Whether two lists of octets are the same.
#[tactic(auto, using(crate::proofs::Chains::same_is))]
pub fn same(a: &[u8], b: &[u8]) -> bool
    ensures { result ≡ same a.now b.now }
{
    a == b
}

// A small letter as its capital, any other octet as it is.
#[tactic(auto, unfolding(crate::specs::Ascii::capital))]
pub fn capital(x: u8) -> u8
    ensures { result ≡ capital x }
{
    x.to_ascii_uppercase()
}

// Whether a text is a word, given in capitals, without regard to case.
pub fn is_word(text: &[u8], word: &[u8]) -> bool
    ensures { result ≡ same (capitals text.now) word.now }
{
    text.len() == word.len() && text.iter().zip(word).all(|(x, y)| capital(*x) == *y)
}

// A text in N octets, padded with NUL. A longer text is cut.
#[tactic(auto, using(crate::proofs::Padded::copied))]
pub fn padded_to<const N: usize>(text: &[u8]) -> [u8; N]
    ensures { result ≡ padded_to N text.now }
{
    let mut kept = [0; N];
    let n = N.min(text.len());
    kept[..n].copy_from_slice(&text[..n]);
    kept
}

// Writes octets into out from index at on. Where they do not fit, out is left as it is. A buffer is lent with an index, as the library has no heap.
// One by one: `copy_from_slice` is compiled to memmove, which a host in C would have to link too, where this is memcpy.
pub fn write(bytes: &[u8], out: &mut [u8], at: usize) -> Option<usize>
    ensures { (result ≡ encoded bytes.now (length out.old) at) × (out.new ≡ written out.old at bytes.now) }
{
    let end = at.checked_add(bytes.len())?;
    if out.len() < end {
        return None;
    }
    for i in 0..bytes.len() {
        out[at + i] = bytes[i];
    }
    Some(end)
}
