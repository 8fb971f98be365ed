// One parameter of a MAIL line.
ghost use Rattle.std.specs.Prelude.{◌≡◌, ◌≤◌, length, drop};
ghost use Rattle.std.specs.List.{prefix_len};
ghost use Rattle.octets.specs.Lists.{before};
ghost use Rattle.mail.specs.Parameter.{keyword_char, value_char};
ghost use Rattle.mail.specs.Mail.{space};
ghost use Rattle.mail.specs.Private.{marked, identity_from, auth_from, submitter_from, other_from, read};

use crate::Mail;
use crate::address::{is_end, judge};
use octets::reader::Reading;

// AUTH, with what it says; SUBMITTER; any other.
#[derive(Clone, Copy)]
pub(crate) enum Parameter {
    Auth(Mail),
    Submitter,
    Other,
}

// Reads the parameter at index i, with where it ends. None: what stands there is none.
#[tactic(auto, using(crate::proofs::Parameters::readings))]
pub(crate) fn read(line: &[u8], i: usize) -> Option<Reading<Parameter>>
    ensures { result ≡ read i (before space (drop i line.now)) }
{
    if !line.get(i)?.is_ascii_alphanumeric() {
        return None;
    }
    let k = i + 1 + keyword_length(&line[i + 1..]);
    let keyword = &line[i..k];
    if octets::is_word(keyword, b"AUTH") {
        return read_auth(line, k);
    }
    if octets::is_word(keyword, b"SUBMITTER") {
        return read_submitter(line, k);
    }
    read_other(line, k)
}

// AUTH, whose keyword ends at index k.
#[tactic(auto, unfolding(crate::specs::Private::auth_from))]
fn read_auth(line: &[u8], k: usize) -> Option<Reading<Parameter>>
    ensures { result ≡ auth_from k (drop k line.now) }
{
    let value = read_identity(line, k)?;
    Some(Reading {
        answer: Parameter::Auth(value.answer),
        at: value.at,
    })
}

// The same of SUBMITTER, which may not be "<>".
#[tactic(auto, unfolding(crate::specs::Private::submitter_from))]
fn read_submitter(line: &[u8], k: usize) -> Option<Reading<Parameter>>
    ensures { result ≡ submitter_from k (drop k line.now) }
{
    let value = read_identity(line, k)?;
    if value.answer == Mail::Null {
        return None;
    }
    Some(Reading {
        answer: Parameter::Submitter,
        at: value.at,
    })
}

// The value of either. It is judged at once: xtext has no other characters than a value may have.
#[tactic(auto, unfolding(crate::specs::Private::identity_from))]
fn read_identity(line: &[u8], k: usize) -> Option<Reading<Mail>>
    ensures { result ≡ identity_from k (drop k line.now) }
{
    if !is_marked(line, k) {
        return None;
    }
    judge(line, k + 1)
}

// The same of any other keyword, which may stand without a value.
#[tactic(auto, using(crate::proofs::Parameters::values), unfolding(crate::specs::Private::other_from))]
fn read_other(line: &[u8], k: usize) -> Option<Reading<Parameter>>
    ensures { result ≡ other_from k (drop k line.now) }
{
    let mut at = k;
    if is_marked(line, k) {
        let n = value_length(&line[k + 1..]);
        if n == 0 {
            return None;
        }
        at = k + 1 + n;
    }
    if !is_end(line, at) {
        return None;
    }
    Some(Reading {
        answer: Parameter::Other,
        at,
    })
}

// Whether "=" stands at an index.
fn is_marked(line: &[u8], i: usize) -> bool
    ensures { result ≡ marked (drop i line.now) }
{
    matches!(line.get(i), Some(b'='))
}

// How many characters of a keyword stand at the front of a text.
fn keyword_length(text: &[u8]) -> usize
    ensures length { result ≡ prefix_len keyword_char text.now }
    ensures within { result ≤ length text.now }
{
    text.iter()
        .take_while(|x| x.is_ascii_alphanumeric() || **x == b'-')
        .count()
}

// The same of a value.
fn value_length(text: &[u8]) -> usize
    ensures length { result ≡ prefix_len value_char text.now }
    ensures within { result ≤ length text.now }
{
    text.iter()
        .take_while(|x| x.is_ascii_graphic() && **x != b'=')
        .count()
}
