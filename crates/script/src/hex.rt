// Octets in hexadecimal.
ghost use Rattle.std.specs.Prelude.{◌≡◌, true, ◌<◌, length, IfSome};
ghost use Rattle.octets.specs.Lists.{every};
ghost use Rattle.script.specs.Hex.{digit, hexdig, pair, decoded, decoded_into};

use octets::DecodeError;

// The number of a digit: small letters alone, where xtext takes capitals alone.
#[tactic(auto, unfolding(crate::specs::Hex::digit))]
fn digit(x: u8) -> Option<u8>
    ensures number { result ≡ digit x }
    ensures small { IfSome result (λ n. n < 16) }
{
    match x {
        b'0'..=b'9' => Some(x - b'0'),
        b'a'..=b'f' => Some(x - b'a' + 10),
        _ => None,
    }
}

// Whether a text is digits alone.
pub fn is_hex(text: &[u8]) -> bool
    ensures { result ≡ every hexdig text.now }
{
    text.iter().all(|x| digit(*x).is_some())
}

// Writes the octets that pairs of digits stand for to the start of out; a last digit alone stands for none. What is not digits, and what does
// not fit, leaves out as it is.
#[tactic(auto, using(crate::proofs::Hexadecimal::pairs))]
pub fn decode(text: &[u8], out: &mut [u8]) -> Result<usize, DecodeError>
    ensures { (result ≡ decoded text.now (length out.old)) × (out.new ≡ decoded_into text.now out.old) }
{
    if !is_hex(text) {
        return Err(DecodeError::Malformed);
    }
    let n = text.len() / 2;
    if out.len() < n {
        return Err(DecodeError::Short);
    }
    for i in 0..n {
        out[i] = pair(text[i * 2], text[i * 2 + 1]);
    }
    Ok(n)
}

// The octet of two digits.
fn pair(y: u8, z: u8) -> u8
    requires { (hexdig y ≡ true) × (hexdig z ≡ true) }
    ensures { result ≡ pair y z }
{
    digit(y).unwrap() * 16 + digit(z).unwrap()
}
