// Whether the numbers of open connections differ, and the tickets that they wait on, told on a walk from the last slot to the first. A hash
// table has the slots that were met, each in a bucket of its number: the first is told by the remainder modulo 509, the next ones by the
// quotient. A number that finds an empty bucket before one whose slot has it is new. Only one whose buckets are all taken by others, or that
// was met, is compared with all slots after its own: so what it costs does not hang on which connections stay.
ghost use Rattle.std.specs.Prelude.{◌≡◌, true, not, IfSome, MatchOption, ℕ, ◌+◌, ◌<◌, ◌≤◌, length, get_or, drop};
ghost use Rattle.std.proofs.Math.Option.{Option, none, some};
ghost use Rattle.std.proofs.Common.{rules};
ghost use Rattle.octets.specs.Lists.{every};
ghost use Rattle.codec.specs.Codec.{is_one, get_number};
ghost use Rattle.server.specs.Limits.{most_connections};
ghost use Rattle.server.specs.Server.{Slot};
ghost use Rattle.server.specs.WellFormed.{number_of, ticket_of, has};
ghost use Rattle.image.specs.Sizes.{slot_size};
ghost use Rattle.image.specs.InPlace.{slot_offset};
ghost use Rattle.image.specs.Layout.{slot};
ghost use Rattle.image.specs.Private.{slots_at, slot_number, slot_ticket, buckets, first_bucket, spread, buckets_of, is_of, empty_bucket, Met, is_new};

use crate::OCTETS;
use crate::leaves::read_number;
use crate::sizes::{MOST_CONNECTIONS, SERVER_SLOTS, SLOT};
use crate::slots::{SLOT_NUMBER, SLOT_PHASE, SLOT_TICKET, WAITING, is_numbered, is_waiting};

pub(crate) const BUCKETS: usize = 512;

// What open slots are told apart by: a number that stands in a slot.
pub(crate) trait Key {
    ghost key: { Slot → Option ℕ };

    ghost OFFSET: { ℕ };

    // How far behind a slot's start it stands.
    const OFFSET: usize;

    // The one that the open slot at an index has, if any.
    fn read(image: &[u8], at: usize) -> Option<u64>
        requires { (at + slot_size ≤ length image.now) × (is_one (get_or image.now at 0) ≡ true) }
        ensures { MatchOption result (key (slot.get image.now at) ≡ none) (λ m. (key (slot.get image.now at) ≡ some m) × (m ≡ get_number 8 image.now (at + OFFSET))) };

    // Whether the slot at an index has this one.
    fn stands(image: &[u8], at: usize, number: u64) -> bool
        requires { at + slot_size ≤ length image.now }
        ensures { result ≡ has (key (slot.get image.now at)) number };

    ghost within: { OFFSET + 8 ≤ slot_size };
}

// The number of a connection.
pub(crate) struct Number;

impl Key for Number {
    ghost key = { number_of };

    ghost OFFSET = { slot_number };

    const OFFSET: usize = SLOT_NUMBER;

    fn read(image: &[u8], at: usize) -> Option<u64> {
        Some(read_number(image, at + SLOT_NUMBER))
    }

    fn stands(image: &[u8], at: usize, number: u64) -> bool {
        is_numbered(image, at, number)
    }

    ghost within = { Prim.search rules };
}

// The ticket that it waits on.
pub(crate) struct Ticket;

impl Key for Ticket {
    ghost key = { ticket_of };

    ghost OFFSET = { slot_ticket };

    const OFFSET: usize = SLOT_TICKET;

    fn read(image: &[u8], at: usize) -> Option<u64> {
        if image[at + SLOT_PHASE] != WAITING {
            return None;
        }
        Some(read_number(image, at + SLOT_TICKET))
    }

    fn stands(image: &[u8], at: usize, number: u64) -> bool {
        is_waiting(image, at, number)
    }

    ghost within = { Prim.search rules };
}

// ---- the buckets of a number, whose least 32 bits of the quotient are spread by 2^32 divided by the golden ratio

#[tactic(auto, unfolding(crate::specs::Private::first_bucket))]
fn first_bucket(number: u64) -> usize
    ensures { (result ≡ first_bucket number) × (result < buckets) }
{
    (number % 509) as usize
}

#[tactic(auto, unfolding(crate::specs::Private::spread))]
fn spread(number: u64) -> u64
    ensures { result ≡ spread number }
{
    number / 509 % 4294967296 * 2654435769 / 8388608
}

// Whether the slot that a bucket has is one with this number, which stands so many octets behind a slot's start. A bucket has the slot's index
// and 64, and 0 where it is empty.
#[tactic(auto, unfolding(crate::specs::Private::is_of))]
fn is_of(image: &[u8; OCTETS], offset: usize, bucket: u8, number: u64) -> bool
    requires { offset + 8 ≤ slot_size }
    ensures { result ≡ is_of image.now offset bucket number }
{
    let i = bucket as usize % MOST_CONNECTIONS;
    read_number(image, SERVER_SLOTS + i * SLOT + offset) == number
}

// The first of a number's buckets that is empty, where no one before it has a slot with this number.
fn find_empty(
    image: &[u8; OCTETS],
    offset: usize,
    table: &[u8; BUCKETS],
    number: u64,
) -> Option<usize>
    requires { offset + 8 ≤ slot_size }
    ensures { (result ≡ empty_bucket image.now offset table.now number (buckets_of number)) × IfSome result (λ k. k < buckets) }
{
    let first = first_bucket(number);
    if table[first] == 0 {
        return Some(first);
    }
    if is_of(image, offset, table[first], number) {
        return None;
    }
    // Not a `for`: it ends where no digit is left.
    let mut rest = spread(number);
    while 0 < rest {
        let k = (rest % 512) as usize;
        if table[k] == 0 {
            return Some(k);
        }
        if is_of(image, offset, table[k], number) {
            return None;
        }
        rest = rest / 512;
    }
    None
}

// ---- a slot beside those after it

// Whether no slot from an index on has this number.
fn is_new<K: Key>(image: &[u8; OCTETS], number: u64, from: usize) -> bool
    requires { from ≤ most_connections }
    ensures { result ≡ every (λ y. not (has (K.key y) number)) (drop from (slots_at image.now)) }
{
    for i in from..MOST_CONNECTIONS {
        if K::stands(image, SERVER_SLOTS + i * SLOT, number) {
            return false;
        }
    }
    true
}

// Whether the open slot at index i has no number of a slot after it; if so, the table has it too.
pub(crate) fn adds<K: Key>(image: &[u8; OCTETS], i: usize, table: &mut [u8; BUCKETS]) -> bool
    requires { (i < most_connections) × (is_one (get_or image.now (slot_offset i) 0) ≡ true) × Met K.key K.OFFSET image.now (i + 1) table.old }
    ensures { (result ≡ is_new K.key (slots_at image.now) i) × (result ≡ true → Met K.key K.OFFSET image.now i table.new) }
{
    let Some(number) = K::read(image, SERVER_SLOTS + i * SLOT) else {
        return true;
    };
    if let Some(k) = find_empty(image, K::OFFSET, table, number) {
        table[k] = (i + MOST_CONNECTIONS) as u8;
        return true;
    }
    is_new::<K>(image, number, i + 1)
}
