// One row of output for a case, in either form.
use crate::form::Named;
use crate::show::{Decoded, Encoded, Measured, Quoted};
use octets::DecodeError;
use octets::reader::{decode_part, measure_part};
use std::io;

// The text of some octets.
pub(crate) fn text_of<F: Named>(rt: &impl Print, bytes: &[u8]) -> io::Result<()> {
    let mut text = [0u8; 192];
    match F::encode(bytes, &mut text, 0) {
        Some(n) => print!(rt; "{}", Quoted(octets::part(&text, 0, n))),
        None => print!(rt; "short"),
    }
}

// A text: how many octets it stands for, which, and their text.
fn read<F: Named>(rt: &impl Print, text: &[u8]) -> io::Result<()> {
    let mut out = [0u8; 64];
    print!(rt;
        "{} {}: {}",
        F::name(),
        Quoted(text),
        Measured(F::measure(text))
    )?;
    match F::decode(text, &mut out) {
        Ok(n) => again::<F>(rt, octets::part(&out, 0, n))?,
        Err(DecodeError::Short) => print!(rt; ", short")?,
        Err(DecodeError::Malformed) => {}
    }
    println!(rt)
}

fn again<F: Named>(rt: &impl Print, bytes: &[u8]) -> io::Result<()> {
    print!(rt; ", {}, again ", Quoted(bytes))?;
    text_of::<F>(rt, bytes)
}

// Each text of a list, with "|" between them.
pub(crate) fn read_each<F: Named>(rt: &impl Print, list: &[u8]) -> io::Result<()> {
    for text in list.split(|x| *x == b'|') {
        read::<F>(rt, text)?;
    }
    Ok(())
}

// A part of a line, decoded into a row of dots.
pub(crate) fn read_part<F: Named>(
    rt: &impl Print,
    line: &[u8],
    from: usize,
    to: usize,
) -> io::Result<()> {
    let mut dots = *b"....................";
    let measured = Measured(measure_part::<F>(line, from, to));
    let decoded = Decoded(decode_part::<F>(line, from, to, &mut dots));
    print!(rt;
        "{} {} from {from} to {to}: {measured}, {decoded}",
        F::name(),
        Quoted(line)
    )?;
    println!(rt; ", {}", Quoted(&dots))
}

// A row of dots of which the first m were lent to decode a text into.
pub(crate) fn decode_into<F: Named>(rt: &impl Print, text: &[u8], m: usize) -> io::Result<()> {
    let mut dots = *b"........";
    print!(rt; "{} {} into {m}: ", F::name(), Quoted(text))?;
    if let Some(lent) = dots.get_mut(..m) {
        print!(rt; "{}", Decoded(F::decode(text, lent)))?;
    }
    println!(rt; ", {}", Quoted(&dots))
}

// The same of base64 whose form is not looked at.
pub(crate) fn decode_unchecked_into(rt: &impl Print, text: &[u8], m: usize) -> io::Result<()> {
    let mut dots = *b"........";
    if let Some(lent) = dots.get_mut(..m) {
        base64text::decode_unchecked(text, lent);
    }
    println!(rt;
        "base64 {} unchecked into {m}, {}",
        Quoted(text),
        Quoted(&dots)
    )
}

// A row of dots of which the first m were lent to encode octets into from an index on.
pub(crate) fn encode_into<F: Named>(
    rt: &impl Print,
    bytes: &[u8],
    m: usize,
    at: usize,
) -> io::Result<()> {
    let mut dots = *b"........";
    print!(rt; "{} of {} into {m} from {at}: ", F::name(), Quoted(bytes))?;
    if let Some(lent) = dots.get_mut(..m) {
        print!(rt; "{}", Encoded(F::encode(bytes, lent, at)))?;
    }
    println!(rt; ", {}", Quoted(&dots))
}

// How many octets of all 256 are taken at each place of a text.
pub(crate) fn taken<F: Named>(rt: &impl Print, text: &[u8]) -> io::Result<()> {
    let mut four = [0u8; 4];
    octets::write(text, &mut four, 0);
    print!(rt;
        "{} {} with another octet at each place, taken:",
        F::name(),
        Quoted(text)
    )?;
    for place in 0..4 {
        print!(rt; " {}", taken_at::<F>(four, place))?;
    }
    println!(rt)
}

fn taken_at<F: Named>(text: [u8; 4], place: usize) -> usize {
    (0..=u8::MAX)
        .filter(|x| F::measure(&with(text, place, *x)).is_some())
        .count()
}

// The text with x at a place.
fn with(mut text: [u8; 4], place: usize, x: u8) -> [u8; 4] {
    if let Some(octet) = text.get_mut(place) {
        *octet = x;
    }
    text
}

// All 256 octets, encoded into a buffer of the text's length and decoded again.
pub(crate) fn all_octets<F: Named>(rt: &impl Print, n: usize) -> io::Result<()> {
    let mut text = [0u8; 584];
    match text.get_mut(..n) {
        Some(lent) => all_octets_in::<F>(rt, lent),
        None => Ok(()),
    }
}

fn all_octets_in<F: Named>(rt: &impl Print, text: &mut [u8]) -> io::Result<()> {
    let bytes = octets_from_zero();
    let mut back = [0u8; 256];
    let encoded = Encoded(F::encode(&bytes, text, 0));
    let decoded = Decoded(F::decode(text, &mut back));
    let same = if bytes == back { "the same" } else { "others" };
    println!(rt;
        "{} of all octets: {encoded}, {}, {decoded}, {same}",
        F::name(),
        Quoted(text)
    )
}

fn octets_from_zero() -> [u8; 256] {
    let mut all = [0u8; 256];
    for (octet, x) in all.iter_mut().zip(0..=u8::MAX) {
        *octet = x;
    }
    all
}
