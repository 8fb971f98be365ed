// The AUTH line.
ghost use Rattle.std.specs.Prelude.{◌≡◌, ◌+◌, ◌<◌, length, drop};
ghost use Rattle.base64text.specs.Base64.{decoded, decoded_into, unchecked_into};
ghost use Rattle.lines.specs.Mechanism.{padded};
ghost use Rattle.lines.specs.Auth.{auth, initial, initial_text, name_text};

use crate::mechanism::{LONGEST_MECHANISM, is_spelling, name_spelled};
use base64text::Base64;
use octets::DecodeError;
use octets::reader::{decode_at, measure_at};

// What an AUTH line says. Alone: the mechanism's name, in letters of either case, stands from index 5 up to `to`, and nothing follows. Initial: the
// base64 of an initial response stands from index `from` to the line's end and decodes to so many octets.
#[derive(Clone, Copy, Debug, PartialEq, Eq)]
pub enum Auth {
    Alone {
        to: usize,
    },
    Initial {
        to: usize,
        from: usize,
        length: usize,
    },
}

// An AUTH line. None: it is not of the form.
#[tactic(auto, using(crate::proofs::Auths::names), unfolding(crate::specs::Auth::auth, crate::specs::Auth::arguments))]
pub fn read_auth(line: &[u8]) -> Option<Auth>
    ensures { result ≡ auth line.now }
{
    if !octets::is_word(octets::part(line, 0, 5), b"AUTH ") {
        return None;
    }
    let to = octets::find(line, 5, b' ');
    if !is_spelling(octets::part(line, 5, to)) {
        return None;
    }
    if line.len() <= to {
        return Some(Auth::Alone { to });
    }
    read_initial(line, to)
}

// The initial response after a mechanism that ends at an index, and one space.
#[tactic(auto, using(crate::proofs::Auths::texts), unfolding(crate::specs::Auth::initial))]
fn read_initial(line: &[u8], to: usize) -> Option<Auth>
    requires { to < length line.now }
    ensures { result ≡ initial to (drop (to + 1) line.now) }
{
    match &line[to + 1..] {
        b"=" => Some(Auth::Initial {
            to,
            from: to + 2,
            length: 0,
        }),
        [] => None,
        _ => {
            let length = measure_at::<Base64>(line, to + 1)?;
            Some(Auth::Initial {
                to,
                from: to + 1,
                length,
            })
        }
    }
}

// The name that a reading of a line points to, in capitals and in twenty octets.
#[tactic(auto, unfolding(crate::specs::Mechanism::padded, octets::specs::Lists::padded_to))]
pub fn name_at(line: &[u8], found: Option<Auth>) -> [u8; LONGEST_MECHANISM]
    ensures { result ≡ padded (name_text found line.now) }
{
    match found {
        Some(Auth::Alone { to } | Auth::Initial { to, .. }) => {
            name_spelled(octets::part(line, 5, to))
        }
        None => [0; LONGEST_MECHANISM],
    }
}

// Decodes the initial response that a reading of a line points to, to the start of out.
#[tactic(auto, unfolding(base64text::specs::Base64::valid, base64text::specs::Base64::octets))]
pub fn decode_initial(
    line: &[u8],
    found: Option<Auth>,
    out: &mut [u8],
) -> Result<usize, DecodeError>
    ensures { (result ≡ decoded (initial_text found line.now) (length out.old)) × (out.new ≡ decoded_into (initial_text found line.now) out.old) }
{
    match found {
        Some(Auth::Initial { from, .. }) => decode_at::<Base64>(line, from, out),
        _ => Ok(0),
    }
}

// The same where the reading is this line's own, so that the initial response was measured and is base64: in one walk, which does not look at its form.
#[tactic(auto, unfolding(base64text::specs::Base64::unchecked))]
pub fn decode_initial_unchecked(line: &[u8], found: Option<Auth>, out: &mut [u8])
    ensures { out.new ≡ unchecked_into (initial_text found line.now) out.old }
{
    if let Some(Auth::Initial { from, .. }) = found {
        base64text::decode_unchecked(octets::part(line, from, line.len()), out);
    }
}
