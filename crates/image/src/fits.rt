// Parts of an image tested where they stand: each field as a number, and nothing is written again.
ghost use Rattle.std.specs.Prelude.{◌≡◌, true, ◌&&◌, ◌+◌, ◌-◌, ◌*◌, ◌%◌, ◌<◌, ◌≤◌, eqb, leb, ltb, length, get_or, replicate};
ghost use Rattle.codec.specs.Codec.{get_number};
ghost use Rattle.codec.specs.InPlace.{stands_at, every_at};
ghost use Rattle.session.specs.Limits.{most_challenges, longest_name};
ghost use Rattle.server.specs.Limits.{most_connections};
ghost use Rattle.server.specs.WellFormed.{number_of, ticket_of};
ghost use Rattle.image.specs.Sizes.{phase_size, session_phase, connection_size, slot_size, server_slots};
ghost use Rattle.image.specs.InPlace.{slot_offset};
ghost use Rattle.image.specs.Private.{header_fits, runs_at, name_fits, phased_fits, connection_fits, slot_fits, slots_differ, slot_number, slot_ticket, Met, joins};

use crate::OCTETS;
use crate::leaves::{are_zeros, read_flag, read_number};
use crate::sizes::{
    CONNECTION_SESSION, HEADER_SEALED, MOST_CONNECTIONS, NUMBER, PHASE, PHASE_SENT, PHASE_TICKET,
    PHASED, SERVER_SLOTS, SESSION_PHASE, SLOT,
};
use crate::slots::{AWAITING, IDLE, SIGNED_IN, WAITING};
use crate::unique::{BUCKETS, Number, Ticket, adds};
use server::Header;
use session::Session;
use session::verdict::is_graphic;

// The last octet of a header is a yes-or-no; its numbers may be any.
pub(crate) fn header_fits(image: &[u8; OCTETS]) -> bool
    ensures { result ≡ header_fits image.now }
{
    image[HEADER_SEALED] <= 1
}

// ---- a name

// Whether each of the 32 octets after the one at an index may come after the one before it in a name that is padded with NUL.
fn runs(image: &[u8], at: usize) -> bool
    requires { at + 33 ≤ length image.now }
    ensures { result ≡ runs_at image.now 32 at }
{
    let mut ok = true;
    for i in 0..32 {
        ok = ok & ((image[at + i + 1] == 0) | is_graphic(image[at + i + 1]) & (image[at + i] != 0));
    }
    ok
}

// The name of who is signed in, padded with NUL. The two runs share an octet.
#[tactic(auto, using(crate::proofs::Fields::name_signed, crate::proofs::Fields::name_none))]
fn is_name(image: &[u8], at: usize) -> bool
    requires { at + longest_name ≤ length image.now }
    ensures { result ≡ name_fits image.now true at }
{
    is_graphic(image[at]) && runs(image, at) & runs(image, at + 31)
}

// ---- an open connection, judged where it stands. at: where its phase stands

// Whether so many octets are zeros, told in two pieces that may share some: the first ones and the last. Where each is a multiple of sixteen, the
// compiler looks at sixteen at a time.
fn are_zeros_in_two<const FIRST: usize, const LAST: usize>(
    image: &[u8],
    at: usize,
    count: usize,
) -> bool
    requires { (at + count ≤ length image.now) × (FIRST ≤ count) × (LAST ≤ count) × (count ≤ FIRST + LAST) }
    ensures { result ≡ stands_at (replicate count 0) image.now at }
{
    are_zeros(image, at, FIRST) && are_zeros(image, at + (count - LAST), LAST)
}

// One that waits on a ticket, which is below the next: nobody is signed in.
fn is_waiting_below(image: &[u8], at: usize, next: u64) -> bool
    requires { at + (phase_size + longest_name) ≤ length image.now }
    ensures { result ≡ (leb (get_or image.now (at + 1) 0) most_challenges && (ltb (get_number 8 image.now (at + 2)) next && stands_at (replicate longest_name 0) image.now (at + phase_size))) }
{
    image[at + PHASE_SENT] <= Session::MOST_CHALLENGES
        && read_number(image, at + PHASE_TICKET) < next
        && are_zeros(image, at + PHASE, Session::LONGEST_NAME)
}

// One that is signed in: no challenge, no ticket, a name.
fn is_signed_in(image: &[u8], at: usize) -> bool
    requires { at + (phase_size + longest_name) ≤ length image.now }
    ensures { result ≡ (leb (get_or image.now (at + 1) 0) 0 && (stands_at (replicate 8 0) image.now (at + 2) && name_fits image.now true (at + phase_size))) }
{
    image[at + PHASE_SENT] == 0
        && are_zeros(image, at + PHASE_TICKET, NUMBER)
        && is_name(image, at + PHASE)
}

// One that an answer is awaited of: no ticket and no name.
fn is_awaiting(image: &[u8], at: usize) -> bool
    requires { at + (phase_size + longest_name) ≤ length image.now }
    ensures { result ≡ (leb (get_or image.now (at + 1) 0) most_challenges && stands_at (replicate (8 + longest_name) 0) image.now (at + 2)) }
{
    image[at + PHASE_SENT] <= Session::MOST_CHALLENGES
        && are_zeros_in_two::<64, 32>(image, at + PHASE_TICKET, PHASED - PHASE_TICKET)
}

// One that is idle: nothing but zeros.
fn is_idle(image: &[u8], at: usize) -> bool
    requires { at + (phase_size + longest_name) ≤ length image.now }
    ensures { result ≡ stands_at (replicate (1 + (8 + longest_name)) 0) image.now (at + 1) }
{
    are_zeros_in_two::<64, 32>(image, at + PHASE_SENT, PHASED - PHASE_SENT)
}

// What a session has from its phase on.
#[tactic(auto, using(crate::proofs::Fields::phases))]
fn phased_fits(image: &[u8], at: usize, next: u64) -> bool
    requires { at + (phase_size + longest_name) ≤ length image.now }
    ensures { result ≡ phased_fits image.now next at }
{
    match image[at] {
        WAITING => is_waiting_below(image, at, next),
        SIGNED_IN => is_signed_in(image, at),
        AWAITING => is_awaiting(image, at),
        IDLE => is_idle(image, at),
        _ => false,
    }
}

// A profile and three flags: each is 0 or 1.
fn are_flags(image: &[u8], at: usize) -> bool
    requires { at + session_phase ≤ length image.now }
    ensures { result ≡ (leb (get_or image.now at 0) 1 && (leb (get_or image.now (at + 1) 0) 1 && (leb (get_or image.now (at + 2) 0) 1 && leb (get_or image.now (at + 3) 0) 1))) }
{
    image[at] <= 1 && image[at + 1] <= 1 && image[at + 2] <= 1 && image[at + 3] <= 1
}

// A connection of a server with this header.
#[tactic(auto, using(crate::proofs::Fields::connection_is))]
fn connection_fits(image: &[u8], header: Header, at: usize) -> bool
    requires { at + connection_size ≤ length image.now }
    ensures { result ≡ connection_fits image.now header at }
{
    header.sealed
        && read_number(image, at) < header.connection
        && are_flags(image, at + CONNECTION_SESSION)
        && phased_fits(
            image,
            at + CONNECTION_SESSION + SESSION_PHASE,
            header.ticket,
        )
}

// ---- the slots

// How many slots in a row are told free at once.
const RUN: usize = 8;

// Whether these slots before index i are free, where it ends a whole run. A slot is taken from the lowest on, so most runs with an open slot show it at once.
fn are_free(image: &[u8; OCTETS], i: usize) -> bool
    requires { (0 < i) × (i ≤ most_connections) }
    ensures { result ≡ (eqb (i % 8) 0 && stands_at (replicate (8 * slot_size) 0) image.now (slot_offset (i - 8))) }
{
    if i % RUN != 0 {
        return false;
    }
    let at = SERVER_SLOTS + (i - RUN) * SLOT;
    image[at] == 0 && are_zeros(image, at, RUN * SLOT)
}

// Whether a slot is free.
fn is_free(image: &[u8], at: usize) -> bool
    requires { at + slot_size ≤ length image.now }
    ensures { result ≡ stands_at (replicate slot_size 0) image.now at }
{
    are_zeros_in_two::<80, 80>(image, at, SLOT)
}

// Whether the slot at index i fits, of a server with this header, and no slot after it has its number or its ticket; if so, the tables have it too.
fn slot_joins(
    image: &[u8; OCTETS],
    header: Header,
    i: usize,
    numbers: &mut [u8; BUCKETS],
    tickets: &mut [u8; BUCKETS],
) -> bool
    requires { (i < most_connections) × Met number_of slot_number image.now (i + 1) numbers.old × Met ticket_of slot_ticket image.now (i + 1) tickets.old }
    ensures { (result ≡ joins image.now header i) × (result ≡ true → Met number_of slot_number image.now i numbers.new) × (result ≡ true → Met ticket_of slot_ticket image.now i tickets.new) }
{
    let at = SERVER_SLOTS + i * SLOT;
    if !read_flag(image, at) {
        return is_free(image, at);
    }
    if !connection_fits(image, header, at + 1) {
        return false;
    }
    if !adds::<Number>(image, i, numbers) {
        return false;
    }
    adds::<Ticket>(image, i, tickets)
}

// Not a `for`: a step back is a whole run or one slot.
pub(crate) fn slots_fit(image: &[u8; OCTETS], header: Header) -> bool
    ensures { result ≡ (every_at (slot_fits image.now header) slot_size most_connections server_slots && slots_differ image.now) }
{
    let mut numbers = [0u8; BUCKETS];
    let mut tickets = [0u8; BUCKETS];
    let mut i = MOST_CONNECTIONS;
    while 0 < i {
        if are_free(image, i) {
            i -= RUN;
        } else {
            i -= 1;
            if !slot_joins(image, header, i, &mut numbers, &mut tickets) {
                return false;
            }
        }
    }
    true
}
