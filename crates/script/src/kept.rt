// A script line of any length: a buffer holds as much of it as fits, and of the octets beyond two facts are kept.
ghost use Rattle.std.specs.Prelude.{◌≡◌, ◌-◌, length, take};
ghost use Rattle.octets.specs.Answers.{written};
ghost use Rattle.script.specs.Kept.{none, extended, started, added};

use crate::hex::is_hex;

// Octets that are not kept: whether they are hexadecimal digits alone, and their number, which counts modulo 2.
#[derive(Clone, Copy, Debug, PartialEq, Eq)]
pub struct Rest {
    pub digits: bool,
    pub parity: usize,
}

// A line: how many octets of it the buffer holds, and the rest. The buffer is lent at each step, since this crate has no heap.
#[derive(Clone, Copy, Debug, PartialEq, Eq)]
pub struct Kept {
    pub length: usize,
    pub rest: Rest,
}

impl Rest {
    // No octets: they are digits alone, which a derived Default would deny.
    #[tactic(auto, unfolding(octets::specs::Lists::every))]
    pub fn none() -> Rest
        ensures { result ≡ none }
    {
        Rest {
            digits: true,
            parity: 0,
        }
    }

    // With more octets after these.
    pub fn extended(self, more: &[u8]) -> Rest
        ensures { result ≡ extended self more.now }
    {
        Rest {
            digits: self.digits && is_hex(more),
            parity: (self.parity % 2 + more.len() % 2) % 2,
        }
    }
}

impl Kept {
    // An empty line.
    pub fn started() -> Kept
        ensures { result ≡ started }
    {
        Kept {
            length: 0,
            rest: Rest::none(),
        }
    }

    // The line with more octets after it. What fits is written into the buffer.
    pub fn added(self, more: &[u8], buffer: &mut [u8]) -> Kept
        ensures { (result ≡ added self more.now (length buffer.old)) × (buffer.new ≡ written buffer.old self.length (take (length buffer.old - self.length) more.now)) }
    {
        let room = buffer.len().saturating_sub(self.length);
        let (fits, over) = more.split_at(room.min(more.len()));
        octets::write(fits, buffer, self.length);
        Kept {
            length: self.length + fits.len(),
            rest: self.rest.extended(over),
        }
    }
}
