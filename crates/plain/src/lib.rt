// Messages of the mechanism PLAIN, RFC 4616.
#![tactic(auto)]

ghost use Rattle.std.specs.Prelude.{◌≡◌, ◌+◌, ◌≤◌, ◌↔◌, length, IsSome};
ghost use Rattle.octets.specs.Answers.{written};
ghost use Rattle.plain.specs.Utf8.{safe};
ghost use Rattle.plain.specs.Message.{fields, measured, fit, joined, writing, written_into};

use base64text::Values;
use scan::Scan;
use utf8::Need;

mod scan;
mod utf8;

// What a message's three fields are: how many octets each has.
#[derive(Clone, Copy, Debug, PartialEq, Eq)]
pub struct Lengths {
    pub authzid: usize,
    pub authcid: usize,
    pub password: usize,
}

// Why a message is not written. Unfit: the fields make none. Short: the buffer is too short for it.
#[derive(Clone, Copy, Debug, PartialEq, Eq)]
pub enum WriteError {
    Unfit,
    Short,
}

// The fields of a message; none where it is malformed.
#[tactic(auto, using(crate::proofs::Scans::reading))]
pub fn read(message: &[u8]) -> Option<Lengths>
    ensures { result ≡ fields message.now }
{
    let mut scan = Scan::started();
    for x in message {
        scan = scan.step(*x)?;
    }
    scan.finished()
}

// The fields of the message that a response in base64 stands for. Nothing of it is written anywhere.
#[tactic(auto, using(crate::proofs::Scans::measuring))]
pub fn measure(text: &[u8]) -> Option<Lengths>
    ensures { result ≡ measured text.now }
{
    let values = Values::new();
    let (groups, _) = text.as_chunks::<4>();
    let mut scan = Scan::started();
    for [a, b, c, d] in groups {
        if let Some(group) = values.group_of(*a, *b, *c, *d) {
            scan = scan.with_group(group)?;
        }
    }
    scan.finished()
}

// Whether octets are UTF-8 without NUL.
#[tactic(auto, using(crate::proofs::Scans::checking))]
fn is_safe(bytes: &[u8]) -> bool
    ensures { result ≡ safe bytes.now }
{
    let mut need = Need::start();
    for x in bytes {
        let Some(next) = need.follow(*x) else {
            return false;
        };
        need = next;
    }
    need.is_met()
}

// Whether three fields make a message.
fn are_fit(authzid: &[u8], authcid: &[u8], password: &[u8]) -> bool
    ensures { result ≡ fit authzid.now authcid.now password.now }
{
    is_safe(authzid)
        && (is_safe(authcid) && !authcid.is_empty())
        && (is_safe(password) && !password.is_empty())
}

// What three fields of these lengths and two NUL leave of m octets; none where they do not fit.
fn room_left(a: usize, c: usize, p: usize, m: usize) -> Option<usize>
    ensures { IsSome result ↔ (a + (c + p + 2) ≤ m) }
{
    m.checked_sub(a)?
        .checked_sub(c)?
        .checked_sub(p)?
        .checked_sub(2)
}

// Writes the message of three fields to the start of out, and gives its length.
fn fill(authzid: &[u8], authcid: &[u8], password: &[u8], out: &mut [u8]) -> usize
    requires { length authzid.now + (length authcid.now + length password.now + 2) ≤ length out.old }
    ensures { (result ≡ length (joined authzid.now authcid.now password.now))
        × (out.new ≡ written out.old 0 (joined authzid.now authcid.now password.now)) }
{
    let first = authzid.len();
    let second = first + 1 + authcid.len();
    let end = second + 1 + password.len();
    octets::write(authzid, out, 0);
    octets::write(b"\0", out, first);
    octets::write(authcid, out, first + 1);
    octets::write(b"\0", out, second);
    octets::write(password, out, second + 1);
    end
}

// Writes the message of three fields to the start of out. Where it is not written, out is left as it is.
#[tactic(auto, unfolding(crate::specs::Message::writing, crate::specs::Message::written_into))]
pub fn write(
    authzid: &[u8],
    authcid: &[u8],
    password: &[u8],
    out: &mut [u8],
) -> Result<usize, WriteError>
    ensures { (result ≡ writing authzid.now authcid.now password.now (length out.old))
        × (out.new ≡ written_into authzid.now authcid.now password.now out.old) }
{
    if !are_fit(authzid, authcid, password) {
        return Err(WriteError::Unfit);
    }
    if room_left(authzid.len(), authcid.len(), password.len(), out.len()).is_none() {
        return Err(WriteError::Short);
    }
    Ok(fill(authzid, authcid, password, out))
}
