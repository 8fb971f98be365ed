// Xtext, RFC 4954 section 8.
#![tactic(auto)]

ghost use Rattle.std.specs.Prelude.{◌≡◌, true, ◌+◌, ◌<◌, ◌≤◌, length, drop, [], ◌∷◌, not, count_by};
ghost use Rattle.std.proofs.lemmas.List.Edits.{sets};
ghost use Rattle.octets.specs.Answers.{written};
ghost use Rattle.xtext.specs.Xtext.{xchar, digits, digit, number, hexdig, hexchar, octets, valid, measured, decoded, decoded_into, encode, encoded, character_at};
ghost use Rattle.xtext.specs.Private.{kind, kinds, begins, number_of, hexchar_of};

use octets::DecodeError;
use octets::form::Form;

// A character of a text: the octet that it stands for and the index after it. End: the text has none there. Neither an Option nor a Result: a caller
// tells all three cases apart.
#[derive(Debug, Clone, Copy, PartialEq, Eq)]
pub enum Character {
    End,
    Malformed,
    Octet { value: u8, next: usize },
}

// The form of text, for readings that are the same for any.
pub struct Xtext;

impl Form for Xtext {
    ghost valid = { valid };

    ghost octets = { octets };

    fn measure(text: &[u8]) -> Option<usize> {
        measure(text)
    }

    fn decode(text: &[u8], out: &mut [u8]) -> Result<usize, DecodeError> {
        decode(text, out)
    }
}

// How many octets a text decodes to. It writes nothing.
pub fn measure(text: &[u8]) -> Option<usize>
    ensures { result ≡ measured text.now }
{
    Kinds::new().measure(text)
}

// Decodes a text to the start of out. A text that is not xtext, and one whose octets do not fit, leave out as it is.
#[tactic(auto, using(crate::proofs::Turns::stored))]
pub fn decode(text: &[u8], out: &mut [u8]) -> Result<usize, DecodeError>
    ensures { (result ≡ decoded text.now (length out.old)) × (out.new ≡ decoded_into text.now out.old) }
{
    let kinds = Kinds::new();
    let n = kinds.measure(text).ok_or(DecodeError::Malformed)?;
    if out.len() < n {
        return Err(DecodeError::Short);
    }
    kinds.fill(text, &mut out[..n]);
    Ok(n)
}

// Writes the text of some octets into out, which is lent, from index at on. Where it does not fit, out is left as it is.
#[tactic(auto, using(crate::proofs::Turns::length_encode))]
pub fn encode(bytes: &[u8], out: &mut [u8], at: usize) -> Option<usize>
    ensures { (result ≡ encoded bytes.now (length out.old) at) × (out.new ≡ written out.old at (encode bytes.now)) }
{
    let room = out.len().checked_sub(at)?.checked_sub(bytes.len())?;
    let kinds = Kinds::new();
    if room / 2 < kinds.escapes(bytes) {
        return None;
    }
    Some(spell(&kinds, &Digits::new(), bytes, out, at))
}

// The kinds of all octets: below 16 the number of a digit, 16 for any other xchar, 17 for the rest. They are numbers, not an enum, so that an octet is one
// in the table. Each public function makes it once and lends it to the others.
#[derive(Drop)]
struct Kinds {
    table: [u8; 256],
    ghost made: { table ≡ kinds },
}

impl Kinds {
    #[tactic(auto, unfolding(crate::specs::Private::kinds, crate::specs::Private::kind, crate::specs::Xtext::number, crate::specs::Xtext::digits))]
    fn new() -> Kinds {
        let table =
            b"\x11\x11\x11\x11\x11\x11\x11\x11\x11\x11\x11\x11\x11\x11\x11\x11\x11\x11\x11\x11\x11\x11\x11\x11\x11\x11\x11\x11\x11\x11\x11\x11\x11\x10\x10\x10\x10\x10\x10\x10\x10\x10\x10\x11\x10\x10\x10\x10\x00\x01\x02\x03\x04\x05\x06\x07\x08\x09\x10\x10\x10\x11\x10\x10\x10\x0a\x0b\x0c\x0d\x0e\x0f\x10\x10\x10\x10\x10\x10\x10\x10\x10\x10\x10\x10\x10\x10\x10\x10\x10\x10\x10\x10\x10\x10\x10\x10\x10\x10\x10\x10\x10\x10\x10\x10\x10\x10\x10\x10\x10\x10\x10\x10\x10\x10\x10\x10\x10\x10\x10\x10\x10\x10\x10\x10\x10\x10\x10\x10\x11\x11\x11\x11\x11\x11\x11\x11\x11\x11\x11\x11\x11\x11\x11\x11\x11\x11\x11\x11\x11\x11\x11\x11\x11\x11\x11\x11\x11\x11\x11\x11\x11\x11\x11\x11\x11\x11\x11\x11\x11\x11\x11\x11\x11\x11\x11\x11\x11\x11\x11\x11\x11\x11\x11\x11\x11\x11\x11\x11\x11\x11\x11\x11\x11\x11\x11\x11\x11\x11\x11\x11\x11\x11\x11\x11\x11\x11\x11\x11\x11\x11\x11\x11\x11\x11\x11\x11\x11\x11\x11\x11\x11\x11\x11\x11\x11\x11\x11\x11\x11\x11\x11\x11\x11\x11\x11\x11\x11\x11\x11\x11\x11\x11\x11\x11\x11\x11\x11\x11\x11\x11\x11\x11\x11\x11\x11\x11\x11";
        Kinds { table: *table }
    }

    #[tactic(auto, using(crate::proofs::Characters::kind_at))]
    fn kind(&self, x: u8) -> u8
        ensures { result ≡ kind x }
    {
        self.table[x as usize]
    }

    #[tactic(auto, using(crate::proofs::Characters::kind_xchar))]
    fn is_xchar(&self, x: u8) -> bool
        ensures { result ≡ xchar x }
    {
        self.kind(x) < 17
    }

    #[tactic(auto, using(crate::proofs::Characters::kind_hexdig))]
    fn is_hexdig(&self, x: u8) -> bool
        ensures { result ≡ hexdig x }
    {
        self.kind(x) < 16
    }

    // The octet of two digits.
    #[tactic(auto, using(crate::proofs::Characters::kind_number))]
    fn hexchar(&self, y: u8, z: u8) -> u8
        requires first { number y < 16 }
        requires second { number z < 16 }
        ensures { result ≡ hexchar y z }
    {
        self.kind(y) * 16 + self.kind(z)
    }

    // Whether a text begins with a hexchar.
    #[tactic(auto, using(crate::proofs::Characters::past_end), unfolding(crate::specs::Private::begins))]
    fn begins(&self, text: &[u8]) -> bool
        ensures { result ≡ begins text.now }
    {
        match text {
            [b'+', y, z, ..] => self.is_hexdig(*y) & self.is_hexdig(*z),
            _ => false,
        }
    }

    // How many octets a text stands for, if it is xtext. A hexchar has two octets more than it stands for. These are counted, so that a turn over an
    // xchar only moves on. By an index: with the rest of the text as a slice such a turn takes 8 instructions in place of 7.
    #[tactic(auto, using(crate::proofs::Turns::measuring))]
    fn measure(&self, text: &[u8]) -> Option<usize>
        ensures { result ≡ measured text.now }
    {
        let mut more: usize = 0;
        let mut i: usize = 0;
        while i < text.len() {
            if self.is_xchar(text[i]) {
                i += 1;
            } else if self.begins(&text[i..]) {
                more += 2;
                i += 3;
            } else {
                return None;
            }
        }
        Some(i - more)
    }

    // Writes the octets of a text to out, which has room for just these. In a valid text "+" has its two digits. The text is read by an index, which moves
    // on by 1 or by 3.
    #[tactic(auto, using(crate::proofs::Turns::filling))]
    fn fill(&self, text: &[u8], out: &mut [u8])
        requires xtext { valid text.now ≡ true }
        requires room { length out.old ≡ length (octets text.now) }
        ensures { out.new ≡ octets text.now }
    {
        let mut i: usize = 0;
        for slot in out {
            let x = text[i];
            if x == b'+' {
                *slot = self.hexchar(text[i + 1], text[i + 2]);
                i += 3;
            } else {
                *slot = x;
                i += 1;
            }
        }
    }

    // How many octets are to be escaped. The length of the text itself might not fit a usize: an escape adds two octets. Added up without a branch:
    // `filter(..).count()` takes twice the instructions.
    fn escapes(&self, bytes: &[u8]) -> usize
        ensures { result ≡ count_by (λ x. not (xchar x)) bytes.now }
    {
        let mut n: usize = 0;
        for x in bytes {
            n += usize::from(!self.is_xchar(*x));
        }
        n
    }
}

// The digits, made once by encode and lent, as the kinds are.
#[derive(Drop)]
struct Digits {
    table: [u8; 16],
    ghost made: { table ≡ digits },
}

impl Digits {
    #[tactic(auto, unfolding(crate::specs::Xtext::digits))]
    fn new() -> Digits {
        let table = b"0123456789ABCDEF";
        Digits { table: *table }
    }

    // The digit of a number.
    #[tactic(auto, unfolding(crate::specs::Xtext::digit))]
    fn digit(&self, v: u8) -> u8
        requires { v < 16 }
        ensures { result ≡ digit v }
    {
        self.table[v as usize]
    }
}

// Writes an octet as xchar or hexchar, and gives the index after it.
#[tactic(auto, unfolding(crate::specs::Xtext::encode))]
fn put(kinds: &Kinds, digits: &Digits, out: &mut [u8], n: usize, x: u8) -> usize
    requires { n + length (encode (x ∷ [])) ≤ length out.old }
    ensures next { result ≡ n + length (encode (x ∷ [])) }
    ensures wrote { out.new ≡ sets out.old n (encode (x ∷ [])) }
{
    if kinds.is_xchar(x) {
        out[n] = x;
        return n + 1;
    }
    out[n] = b'+';
    out[n + 1] = digits.digit(x / 16);
    out[n + 2] = digits.digit(x % 16);
    n + 3
}

// Writes the text of some octets into out from index at on, and gives the index after it.
#[tactic(auto, using(crate::proofs::Turns::writing))]
fn spell(kinds: &Kinds, digits: &Digits, bytes: &[u8], out: &mut [u8], at: usize) -> usize
    requires { at + length (encode bytes.now) ≤ length out.old }
    ensures next { result ≡ at + length (encode bytes.now) }
    ensures wrote { out.new ≡ sets out.old at (encode bytes.now) }
{
    let mut n = at;
    for x in bytes {
        n = put(kinds, digits, out, n, *x);
    }
    n
}

// The character of a text at index i. Compared directly, with no table, so that a call for one character costs no more than that.
#[tactic(auto, using(crate::proofs::Walk::walking))]
pub fn character_at(text: &[u8], i: usize) -> Character
    ensures { result ≡ character_at i (drop i text.now) }
{
    match text.get(i) {
        None => Character::End,
        Some(b'+') => match hexchar(&text[i + 1..]) {
            Some(value) => Character::Octet { value, next: i + 3 },
            None => Character::Malformed,
        },
        Some(x) if stands_for_itself(*x) => Character::Octet {
            value: *x,
            next: i + 1,
        },
        Some(_) => Character::Malformed,
    }
}

// The octet of the two digits that a text begins with.
#[tactic(auto, using(crate::proofs::Characters::past_end), unfolding(crate::specs::Private::number_of))]
fn hexchar(text: &[u8]) -> Option<u8>
    ensures { result ≡ hexchar_of text.now }
{
    let [y, z, ..] = text else {
        return None;
    };
    Some(number(*y)? * 16 + number(*z)?)
}

// The ranges are joined by `|`: as one pattern they are tested in order, and letters last.
fn stands_for_itself(x: u8) -> bool
    ensures { result ≡ xchar x }
{
    (0x21..=0x2A).contains(&x) | (0x2C..=0x3C).contains(&x) | (0x3E..=0x7E).contains(&x)
}

// The number of a digit.
#[tactic(auto, using(crate::proofs::Walk::number_is), unfolding(crate::specs::Private::number_of))]
fn number(x: u8) -> Option<u8>
    ensures { result ≡ number_of x }
{
    match x {
        b'0'..=b'9' => Some(x - b'0'),
        b'A'..=b'F' => Some(x - b'A' + 10),
        _ => None,
    }
}
