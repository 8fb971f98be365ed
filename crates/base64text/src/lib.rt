// Base64, RFC 4648 section 4.
#![tactic(auto)]

ghost use Rattle.std.specs.Prelude.{◌≡◌, ◌+◌, ◌-◌, ◌^◌, ◌≤◌, ◌<◌, length};
ghost use Rattle.std.specs.List.{list_all};
ghost use Rattle.std.proofs.lemmas.List.Edits.{sets};
ghost use Rattle.octets.specs.Answers.{written};
ghost use Rattle.base64text.specs.Base64.{alphabet, letter, value, bits, quad1, quad2, quad3, encode, joined, letters, letters3, letters2, octets3, grouped, group_of, octets_of, octets, valid, unchecked, measured, decoded, decoded_into, unchecked_into, encoded};
ghost use Rattle.base64text.specs.Private.{values, number_range, before_last, last_of, last_group, letters_in};

use octets::DecodeError;
use octets::form::Form;

// What four octets of text stand for: three octets, at the end of a text two or one.
#[derive(Clone, Copy, Debug, PartialEq, Eq)]
pub enum Group {
    One(u8),
    Two(u8, u8),
    Three(u8, u8, u8),
}

// The form of text, for readings that are the same for any.
pub struct Base64;

impl Form for Base64 {
    ghost valid = { valid };

    ghost octets = { octets };

    fn measure(text: &[u8]) -> Option<usize> {
        measure(text)
    }

    fn decode(text: &[u8], out: &mut [u8]) -> Result<usize, DecodeError> {
        decode(text, out)
    }
}

// How many octets a text decodes to. It writes nothing.
pub fn measure(text: &[u8]) -> Option<usize>
    ensures { result ≡ measured text.now }
{
    Values::new().measure(text)
}

// Decodes a text to the start of out. A text that is not base64, and one whose octets do not fit, leave out as it is. Like xtext's, but each lends a table
// of its own to both walks.
#[tactic(auto, using(crate::proofs::Turns::decoding))]
pub fn decode(text: &[u8], out: &mut [u8]) -> Result<usize, DecodeError>
    ensures { (result ≡ decoded text.now (length out.old)) × (out.new ≡ decoded_into text.now out.old) }
{
    let values = Values::new();
    let n = values.measure(text).ok_or(DecodeError::Malformed)?;
    if out.len() < n {
        return Err(DecodeError::Short);
    }
    values.fill(text, out);
    Ok(n)
}

// Decodes a text that was measured before, and is base64, to the start of out: in one walk, which does not look at its form again. Of any other text it
// writes `unchecked`, which stands for nothing. Where the octets do not fit, out is left as it is.
pub fn decode_unchecked(text: &[u8], out: &mut [u8])
    ensures { out.new ≡ unchecked_into text.now out.old }
{
    let values = Values::new();
    if values.unchecked_length(text) <= out.len() {
        values.fill(text, out);
    }
}

// Writes the text of some octets into out, which is lent, from index at on. Where it does not fit, out is left as it is.
#[tactic(auto, using(crate::proofs::Quads::fitting))]
pub fn encode(bytes: &[u8], out: &mut [u8], at: usize) -> Option<usize>
    ensures { (result ≡ encoded bytes.now (length out.old) at) × (out.new ≡ written out.old at (encode bytes.now)) }
{
    if out.len().checked_sub(at)? < bytes.len().div_ceil(3) * 4 {
        return None;
    }
    Some(Alphabet::new().spell(bytes, out, at))
}

// The numbers of all octets, from the alphabet's five ranges: A-Z, a-z, 0-9, "+", "/". An octet in none of them has 64. An array is made anew on the
// stack wherever it is written, so whoever reads a text makes the table once and lends it.
#[derive(Drop)]
pub struct Values {
    pub table: [u8; 256],
    pub ghost made: { table ≡ values },
}

impl Values {
    #[tactic(auto, using(crate::proofs::Ranges::ranges))]
    pub fn new() -> Values {
        let mut table = [64; 256];
        number_range(&mut table, b'A', b'Z', 0);
        number_range(&mut table, b'a', b'z', 26);
        number_range(&mut table, b'0', b'9', 52);
        number_range(&mut table, b'+', b'+', 62);
        number_range(&mut table, b'/', b'/', 63);
        Values { table }
    }

    // The number of a letter, and 64 of any other octet: an Option would have the four of a group tested one by one, in a quarter more instructions.
    #[tactic(auto, using(crate::proofs::Ranges::values_at))]
    fn value(&self, x: u8) -> u8
        ensures { result ≡ value x }
    {
        self.table[x as usize]
    }

    // The three octets that four octets of text stand for where they are taken for letters.
    fn three_of(&self, a: u8, b: u8, c: u8, d: u8) -> [u8; 3]
        ensures { result ≡ octets3 (joined (value a) (value b) (value c) (value d)) }
    {
        three(self.value(a), self.value(b), self.value(c), self.value(d))
    }

    // What four octets of text stand for; nothing where they are no group.
    #[tactic(auto, unfolding(crate::specs::Base64::group_of))]
    pub fn group_of(&self, a: u8, b: u8, c: u8, d: u8) -> Option<Group>
        ensures { result ≡ group_of a b c d }
    {
        grouped(
            self.value(a),
            self.value(b),
            self.value(c),
            self.value(d),
            c,
            d,
        )
    }

    // What the last octets of a text stand for; nothing where they are not four.
    fn last_group(&self, last: &[u8]) -> Option<Group>
        ensures { result ≡ last_group last.now }
    {
        let [a, b, c, d] = last else {
            return None;
        };
        self.group_of(*a, *b, *c, *d)
    }

    // Whether groups are four letters each.
    fn are_letters(&self, groups: &[[u8; 4]]) -> bool
        ensures { result ≡ list_all letters_in groups.now }
    {
        groups.iter().all(|[a, b, c, d]| {
            letters(
                self.value(*a),
                self.value(*b),
                self.value(*c),
                self.value(*d),
            )
        })
    }

    // Every group but the last must be four letters.
    #[tactic(auto, using(crate::proofs::Turns::measuring))]
    fn measure(&self, text: &[u8]) -> Option<usize>
        ensures { result ≡ measured text.now }
    {
        let (before, last) = cut_last(text);
        if last.is_empty() {
            return Some(0);
        }
        if !self.are_letters(before) {
            return None;
        }
        Some(before.len() * 3 + self.last_group(last)?.len())
    }

    // How many octets fill writes: three for a group, but where the text ends with a group as many as that one is.
    #[tactic(auto, using(crate::proofs::Turns::counting))]
    fn unchecked_length(&self, text: &[u8]) -> usize
        ensures { result ≡ length (unchecked text.now) }
    {
        let (before, last) = cut_last(text);
        before.len() * 3 + self.last_group(last).map_or(0, Group::len)
    }

    // Writes the octets of a text whose form is not looked at to the start of out.
    #[tactic(auto, using(crate::proofs::Turns::filling))]
    fn fill(&self, text: &[u8], out: &mut [u8])
        requires { length (unchecked text.now) ≤ length out.old }
        ensures { out.new ≡ sets out.old 0 (unchecked text.now) }
    {
        let (before, last) = cut_last(text);
        let mut n = 0;
        for [a, b, c, d] in before {
            out[n..n + 3].copy_from_slice(&self.three_of(*a, *b, *c, *d));
            n += 3;
        }
        if let Some(group) = self.last_group(last) {
            group.put(out, n);
        }
    }
}

// A text as the groups that more text follows, and what stands behind them: one to four octets, or none where there is no text.
#[tactic(auto, using(crate::proofs::Turns::cutting))]
fn cut_last(text: &[u8]) -> (&[[u8; 4]], &[u8])
    ensures { (result.0.now ≡ before_last text.now) × (result.1.now ≡ last_of text.now) }
{
    let (before, last) = text.split_at(text.len().saturating_sub(1) / 4 * 4);
    (before.as_chunks().0, last)
}

// Numbers the octets from low to high in turn, from a number on.
#[tactic(auto, using(crate::proofs::Ranges::numbering))]
fn number_range(table: &mut [u8; 256], low: u8, high: u8, number: u8)
    requires { number + (high + 1 - low) ≤ 64 }
    ensures { table.new ≡ number_range table.old low high number }
{
    for x in low..=high {
        table[x as usize] = number + (x - low);
    }
}

// Four 6-bit groups as 24 bits.
fn joined(p: u8, q: u8, r: u8, s: u8) -> u32
    ensures { result ≡ joined p q r s }
{
    p as u32 * 262144 + q as u32 * 4096 + r as u32 * 64 + s as u32
}

// Four 6-bit groups as three octets.
fn three(p: u8, q: u8, r: u8, s: u8) -> [u8; 3]
    ensures { result ≡ octets3 (joined p q r s) }
{
    let [_, x, y, z] = joined(p, q, r, s).to_be_bytes();
    [x, y, z]
}

// Four letters, by their numbers; three and "="; two and "==". The unused bits must be zero. Three tests of different octets,
// so no one function of a count is plainer. With `&` all is tested at once.
fn letters(p: u8, q: u8, r: u8, s: u8) -> bool
    ensures { result ≡ letters p q r s }
{
    (p < 64) & (q < 64) & (r < 64) & (s < 64)
}

fn letters3(p: u8, q: u8, r: u8, d: u8) -> bool
    ensures { result ≡ letters3 p q r d }
{
    let w = joined(p, q, r, 0);
    (p < 64) & (q < 64) & (r < 64) & (d == b'=') & (w % 256 == 0)
}

fn letters2(p: u8, q: u8, c: u8, d: u8) -> bool
    ensures { result ≡ letters2 p q c d }
{
    let w = joined(p, q, 0, 0);
    (p < 64) & (q < 64) & (c == b'=') & (d == b'=') & (w % 65536 == 0)
}

// What four octets of text stand for, by their numbers p q r s; c and d are the last two of them. Nothing where they are no group.
pub fn grouped(p: u8, q: u8, r: u8, s: u8, c: u8, d: u8) -> Option<Group>
    ensures { result ≡ grouped p q r s c d }
{
    if letters(p, q, r, s) {
        let [x, y, z] = three(p, q, r, s);
        return Some(Group::Three(x, y, z));
    }
    if letters3(p, q, r, d) {
        let [x, y, _] = three(p, q, r, 0);
        return Some(Group::Two(x, y));
    }
    if letters2(p, q, c, d) {
        let [x, _, _] = three(p, q, 0, 0);
        return Some(Group::One(x));
    }
    None
}

impl Group {
    // How many octets a group is.
    fn len(self) -> usize
        ensures { result ≡ length (octets_of self) }
    {
        match self {
            Group::Three(_, _, _) => 3,
            Group::Two(_, _) => 2,
            Group::One(_) => 1,
        }
    }

    // Writes the octets of a group at index n of out.
    #[tactic(auto, using(crate::proofs::Stores::stored))]
    fn put(self, out: &mut [u8], n: usize)
        requires { n + length (octets_of self) ≤ length out.old }
        ensures { out.new ≡ sets out.old n (octets_of self) }
    {
        match self {
            Group::Three(x, y, z) => out[n..n + 3].copy_from_slice(&[x, y, z]),
            Group::Two(x, y) => out[n..n + 2].copy_from_slice(&[x, y]),
            Group::One(x) => out[n] = x,
        }
    }
}

// The alphabet, made once by encode and lent, as the numbers are.
#[derive(Drop)]
struct Alphabet {
    letters: [u8; 64],
    ghost made: { letters ≡ alphabet },
}

impl Alphabet {
    #[tactic(auto, unfolding(crate::specs::Base64::alphabet))]
    fn new() -> Alphabet {
        Alphabet {
            letters: *b"ABCDEFGHIJKLMNOPQRSTUVWXYZabcdefghijklmnopqrstuvwxyz0123456789+/",
        }
    }

    // The letter of a number.
    #[tactic(auto, unfolding(crate::specs::Base64::letter))]
    fn letter(&self, v: u32) -> u8
        requires { v < 64 }
        ensures { result ≡ letter v }
    {
        self.letters[v as usize]
    }

    // The text of three octets, of two, of one.
    fn quad3(&self, a: u8, b: u8, c: u8) -> [u8; 4]
        ensures { result ≡ quad3 a b c }
    {
        let w = bits(a, b, c);
        [
            self.letter(w / 262144 % 64),
            self.letter(w / 4096 % 64),
            self.letter(w / 64 % 64),
            self.letter(w % 64),
        ]
    }

    fn quad2(&self, a: u8, b: u8) -> [u8; 4]
        ensures { result ≡ quad2 a b }
    {
        let [p, q, r, _] = self.quad3(a, b, 0);
        [p, q, r, b'=']
    }

    fn quad1(&self, a: u8) -> [u8; 4]
        ensures { result ≡ quad1 a }
    {
        let [p, q, _, _] = self.quad3(a, 0, 0);
        [p, q, b'=', b'=']
    }

    // Writes the text of some octets into out from index at on, and gives the index after it.
    #[tactic(auto, using(crate::proofs::Quads::spelling))]
    fn spell(&self, bytes: &[u8], out: &mut [u8], at: usize) -> usize
        requires { at + length (encode bytes.now) ≤ length out.old }
        ensures { (result ≡ at + length (encode bytes.now)) × (out.new ≡ sets out.old at (encode bytes.now)) }
    {
        let (threes, rest) = bytes.as_chunks::<3>();
        let mut n = at;
        for [a, b, c] in threes {
            out[n..n + 4].copy_from_slice(&self.quad3(*a, *b, *c));
            n += 4;
        }
        let last = match rest {
            [] => return n,
            [a] => self.quad1(*a),
            [a, b, ..] => self.quad2(*a, *b),
        };
        out[n..n + 4].copy_from_slice(&last);
        n + 4
    }
}

// Three octets as 24 bits. `u32::from_be_bytes` takes an instruction more for each three.
fn bits(a: u8, b: u8, c: u8) -> u32
    ensures { result ≡ bits a b c }
{
    a as u32 * 65536 + b as u32 * 256 + c as u32
}
