// "a reader that holds the line and the spot reached": a struct with a reference to the line, and the readings of a text of any form: over the line and
// a number, through the reader, and above it with plain parameters again. Measuring and decoding have one function each of every kind, as document 01
// names them; what they share is `reached`.
ghost use Rattle.std.specs.Prelude.{◌≡◌, Bool, cond, length, drop};
ghost use Rattle.std.proofs.Math.Seq.{slice};
ghost use Rattle.octets.specs.Answers.{measured, decoded, decoded_into};
ghost use Rattle.octets.specs.Reader.{end, measuring, decoding, rest, after_measured, after_decoded};

use crate::DecodeError;
use crate::form::Form;

// A line and the index reached in it. Past the line's end nothing is left to read.
#[derive(Clone, Copy)]
pub struct Reader<'a> {
    pub line: &'a [u8],
    pub at: usize,
}

// The answer of a reading from an index of a line on, and the index that it reached.
#[derive(Clone, Copy)]
pub struct Reading<A> {
    pub answer: A,
    pub at: usize,
}

// The line's end, or the index itself where it is past it.
pub fn end(line: &[u8], at: usize) -> usize
    ensures { result ≡ end line.now at }
{
    line.len().max(at)
}

// The index that a reading reached: the line's end where it took what stands there, else the index where it began.
pub fn reached(line: &[u8], at: usize, took: bool) -> usize
    ensures { result ≡ cond took (end line.now at) at }
{
    if took { end(line, at) } else { at }
}

// Over a line and a number: how many octets the rest of the line stands for, and the index reached.
pub fn measure_from<F: Form>(line: &[u8], at: usize) -> Reading<Option<usize>>
    ensures { result ≡ measuring (measured (F.valid (drop at line.now)) (F.octets (drop at line.now))) line.now at }
{
    let answer = F::measure(crate::part(line, at, line.len()));
    Reading {
        answer,
        at: reached(line, at, answer.is_some()),
    }
}

// Decodes the rest of the line to the start of out.
pub fn decode_from<F: Form>(
    line: &[u8],
    at: usize,
    out: &mut [u8],
) -> Reading<Result<usize, DecodeError>>
    ensures { (result ≡ decoding (decoded (F.valid (drop at line.now)) (F.octets (drop at line.now)) (length out.old)) line.now at)
        × (out.new ≡ decoded_into (F.valid (drop at line.now)) (F.octets (drop at line.now)) out.old) }
{
    let answer = F::decode(crate::part(line, at, line.len()), out);
    Reading {
        answer,
        at: reached(line, at, answer.is_ok()),
    }
}

// How many octets the rest of the line stands for. The reader comes back at the line's end; where the rest is malformed, as it was.
pub fn measure_rest<F: Form>(r: &mut Reader<'_>) -> Option<usize>
    ensures { (result ≡ measured (F.valid (rest r.old)) (F.octets (rest r.old))) × (r.new ≡ after_measured result r.old) }
{
    let read = measure_from::<F>(r.line, r.at);
    r.at = read.at;
    read.answer
}

// Decodes the rest of the line to the start of out. Where it is malformed, or does not fit, out and the reader are left as they are.
pub fn decode_rest<F: Form>(r: &mut Reader<'_>, out: &mut [u8]) -> Result<usize, DecodeError>
    ensures { (result ≡ decoded (F.valid (rest r.old)) (F.octets (rest r.old)) (length out.old))
        × (r.new ≡ after_decoded result r.old)
        × (out.new ≡ decoded_into (F.valid (rest r.old)) (F.octets (rest r.old)) out.old) }
{
    let read = decode_from::<F>(r.line, r.at, out);
    r.at = read.at;
    read.answer
}

// The same of a line and an index, for callers that keep no reader.
pub fn measure_at<F: Form>(line: &[u8], at: usize) -> Option<usize>
    ensures { result ≡ measured (F.valid (drop at line.now)) (F.octets (drop at line.now)) }
{
    let mut r = Reader { line, at };
    measure_rest::<F>(&mut r)
}

pub fn decode_at<F: Form>(line: &[u8], at: usize, out: &mut [u8]) -> Result<usize, DecodeError>
    ensures { (result ≡ decoded (F.valid (drop at line.now)) (F.octets (drop at line.now)) (length out.old))
        × (out.new ≡ decoded_into (F.valid (drop at line.now)) (F.octets (drop at line.now)) out.old) }
{
    let mut r = Reader { line, at };
    decode_rest::<F>(&mut r, out)
}

// The same of the part of a line from one index up to another.
pub fn measure_part<F: Form>(line: &[u8], from: usize, to: usize) -> Option<usize>
    ensures { result ≡ measured (F.valid (slice from to line.now)) (F.octets (slice from to line.now)) }
{
    measure_at::<F>(crate::part(line, 0, to), from)
}

pub fn decode_part<F: Form>(
    line: &[u8],
    from: usize,
    to: usize,
    out: &mut [u8],
) -> Result<usize, DecodeError>
    ensures { (result ≡ decoded (F.valid (slice from to line.now)) (F.octets (slice from to line.now)) (length out.old))
        × (out.new ≡ decoded_into (F.valid (slice from to line.now)) (F.octets (slice from to line.now)) out.old) }
{
    decode_at::<F>(crate::part(line, 0, to), from, out)
}
