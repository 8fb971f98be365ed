// The C face of base64 and xtext for bench/; no part of the library that is shipped. An answer is one number, since that is what C gets.
#![tactic(auto)]

ghost use Rattle.std.specs.Prelude.{◌≡◌, length};
ghost use Rattle.octets.specs.Answers.{written};
ghost use Rattle.base64text.specs.Base64;
ghost use Rattle.xtext.specs.Xtext;
ghost use Rattle.benchface.specs.Numbers.{measured_number, decoded_number, encoded_number};

use octets::DecodeError;

const MALFORMED: u64 = u64::MAX;

const SHORT: u64 = u64::MAX - 1;

fn measured_number(m: Option<usize>) -> u64
    ensures { result ≡ measured_number m }
{
    match m {
        Some(n) => n as u64,
        None => MALFORMED,
    }
}

fn decoded_number(d: Result<usize, DecodeError>) -> u64
    ensures { result ≡ decoded_number d }
{
    match d {
        Ok(n) => n as u64,
        Err(DecodeError::Malformed) => MALFORMED,
        Err(DecodeError::Short) => SHORT,
    }
}

fn encoded_number(e: Option<usize>) -> u64
    ensures { result ≡ encoded_number e }
{
    match e {
        Some(n) => n as u64,
        None => SHORT,
    }
}

#[unsafe(no_mangle)]
pub extern "C" fn bench_base64_measure(text: &[u8]) -> u64
    ensures { result ≡ measured_number (Base64.measured text.now) }
{
    measured_number(base64text::measure(text))
}

#[unsafe(no_mangle)]
pub extern "C" fn bench_base64_decode(text: &[u8], out: &mut [u8]) -> u64
    ensures { (result ≡ decoded_number (Base64.decoded text.now (length out.old))) × (out.new ≡ Base64.decoded_into text.now out.old) }
{
    decoded_number(base64text::decode(text, out))
}

#[unsafe(no_mangle)]
pub extern "C" fn bench_base64_encode(bytes: &[u8], out: &mut [u8], at: usize) -> u64
    ensures { (result ≡ encoded_number (Base64.encoded bytes.now (length out.old) at)) × (out.new ≡ written out.old at (Base64.encode bytes.now)) }
{
    encoded_number(base64text::encode(bytes, out, at))
}

#[unsafe(no_mangle)]
pub extern "C" fn bench_xtext_measure(text: &[u8]) -> u64
    ensures { result ≡ measured_number (Xtext.measured text.now) }
{
    measured_number(xtext::measure(text))
}

#[unsafe(no_mangle)]
pub extern "C" fn bench_xtext_decode(text: &[u8], out: &mut [u8]) -> u64
    ensures { (result ≡ decoded_number (Xtext.decoded text.now (length out.old))) × (out.new ≡ Xtext.decoded_into text.now out.old) }
{
    decoded_number(xtext::decode(text, out))
}

#[unsafe(no_mangle)]
pub extern "C" fn bench_xtext_encode(bytes: &[u8], out: &mut [u8], at: usize) -> u64
    ensures { (result ≡ encoded_number (Xtext.encoded bytes.now (length out.old) at)) × (out.new ≡ written out.old at (Xtext.encode bytes.now)) }
{
    encoded_number(xtext::encode(bytes, out, at))
}
