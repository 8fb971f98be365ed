// The image of a server: a buffer of fixed length that a host in C holds. Nothing here builds a whole server: an image is tested, searched and
// changed where it stands. Octets of another length are no image: nothing is found there and nothing changes.
#![tactic(auto)]

ghost use Rattle.std.specs.Prelude.{◌≡◌, ◌≢◌, ◌+◌, ◌≤◌, true, false, MatchOption, length};
ghost use Rattle.std.proofs.Math.Option.{none, some};
ghost use Rattle.server.specs.Slots.{is_numbered, is_waiting, is_free, holding};
ghost use Rattle.image.specs.Sizes.{slot_size, image_size};
ghost use Rattle.image.specs.InPlace.{is_taken, has_slot, slot_offset, slot_found, header_read, mechanisms_read, connection_read, header_written, mechanism_written, slot_written, fresh_written};

use server::{Connection, Header, MOST_MECHANISMS, Mechanism, Mechanisms};
use sizes::{
    CONNECTION, HEADER, MECHANISM, MOST_CONNECTIONS, SERVER_MECHANISMS, SERVER_SLOTS, SLOT,
};

mod fits;
mod leaves;
mod mechanisms;
mod records;
mod sizes;
mod slots;
mod unique;

// How many octets an image has.
pub const OCTETS: usize = SERVER_SLOTS + MOST_CONNECTIONS * SLOT;

// The octets as an image; None where their length is another.
fn whole(octets: &[u8]) -> Option<&[u8; OCTETS]>
    ensures { MatchOption result (length octets.now ≢ image_size) (λ image. (length octets.now ≡ image_size) × (image.now ≡ octets.now)) }
{
    octets.as_array()
}

// Where the slot at an index starts; None where there is no such slot.
#[tactic(auto, unfolding(crate::specs::InPlace::has_slot))]
fn slot_at(image: &[u8], index: usize) -> Option<usize>
    ensures { MatchOption result (has_slot image.now index ≡ false) (λ at. (has_slot image.now index ≡ true) × (at ≡ slot_offset index) × (at + slot_size ≤ length image.now)) }
{
    if image.len() == OCTETS && index < MOST_CONNECTIONS {
        Some(SERVER_SLOTS + index * SLOT)
    } else {
        None
    }
}

// Whether the image is one that is written for a server within the limits.
#[tactic(auto, using(crate::proofs::Split::judged))]
pub fn is_taken(image: &[u8]) -> bool
    ensures { result ≡ is_taken image.now }
{
    let Some(image) = whole(image) else {
        return false;
    };
    fits::header_fits(image)
        && mechanisms::mechanisms_fit(image)
        && fits::slots_fit(image, records::read_header(image, 0))
}

// The index of the slot that holds the open connection with this number.
#[tactic(auto, using(crate::proofs::Places::found_other))]
pub fn find_connection(image: &[u8], number: u64) -> Option<usize>
    ensures { result ≡ slot_found (holding (is_numbered number)) image.now }
{
    let image = whole(image)?;
    (0..MOST_CONNECTIONS).find(|&i| slots::is_numbered(image, SERVER_SLOTS + i * SLOT, number))
}

// The index of the slot of the open connection that waits on this ticket.
#[tactic(auto, using(crate::proofs::Places::found_other))]
pub fn find_ticket(image: &[u8], ticket: u64) -> Option<usize>
    ensures { result ≡ slot_found (holding (is_waiting ticket)) image.now }
{
    let image = whole(image)?;
    (0..MOST_CONNECTIONS).find(|&i| slots::is_waiting(image, SERVER_SLOTS + i * SLOT, ticket))
}

// The index of the lowest free slot.
#[tactic(auto, using(crate::proofs::Places::found_other))]
pub fn find_free(image: &[u8]) -> Option<usize>
    ensures { result ≡ slot_found is_free image.now }
{
    let image = whole(image)?;
    (0..MOST_CONNECTIONS).find(|&i| slots::is_free(image, SERVER_SLOTS + i * SLOT))
}

// The header; where there is no image, what zeros are read as.
#[tactic(auto, using(crate::proofs::Parts::no_header), unfolding(crate::specs::InPlace::header_read))]
pub fn read_header(image: &[u8]) -> Header
    ensures { result ≡ header_read image.now }
{
    let Some(image) = whole(image) else {
        return records::read_header(&[0; HEADER], 0);
    };
    records::read_header(image, 0)
}

// The table of mechanisms.
#[tactic(auto, using(crate::proofs::Parts::no_table), unfolding(crate::specs::InPlace::mechanisms_read))]
pub fn read_mechanisms(image: &[u8]) -> Mechanisms
    ensures { result ≡ mechanisms_read image.now }
{
    let Some(image) = whole(image) else {
        return Mechanisms::none();
    };
    records::read_table(image)
}

// The connection that a slot holds; where the slot is free or there is none, what its octets or zeros are read as.
#[tactic(auto, using(crate::proofs::Parts::no_connection), unfolding(crate::specs::InPlace::connection_read))]
pub fn read_connection(image: &[u8], index: usize) -> Connection
    ensures { result ≡ connection_read image.now index }
{
    let Some(at) = slot_at(image, index) else {
        return records::read_connection(&[0; CONNECTION], 0);
    };
    records::read_connection(image, at + 1)
}

#[tactic(auto, unfolding(crate::specs::InPlace::header_written))]
pub fn write_header(image: &mut [u8], header: Header)
    ensures { image.new ≡ header_written image.old header }
{
    if image.len() == OCTETS {
        records::write_header(image, 0, header);
    }
}

// Writes a mechanism, as the last of the table.
#[tactic(auto, using(codec::proofs::Stored::stored_one), unfolding(crate::specs::InPlace::mechanism_written, crate::specs::InPlace::has_record))]
pub fn write_mechanism(image: &mut [u8], index: usize, mechanism: Mechanism)
    ensures { image.new ≡ mechanism_written image.old index mechanism }
{
    if image.len() == OCTETS && index < MOST_MECHANISMS {
        image[SERVER_MECHANISMS] = (index + 1) as u8;
        records::write_mechanism(image, SERVER_MECHANISMS + 1 + index * MECHANISM, mechanism);
    }
}

#[tactic(auto, unfolding(crate::specs::InPlace::slot_written))]
pub fn write_connection(image: &mut [u8], index: usize, connection: Connection)
    ensures { image.new ≡ slot_written image.old index (some connection) }
{
    if let Some(at) = slot_at(image, index) {
        records::write_open(image, at, connection);
    }
}

#[tactic(auto, unfolding(crate::specs::InPlace::slot_written))]
pub fn free_slot(image: &mut [u8], index: usize)
    ensures { image.new ≡ slot_written image.old index none }
{
    if let Some(at) = slot_at(image, index) {
        records::write_free(image, at);
    }
}

// Writes the image of a server that was just made.
#[tactic(auto, using(crate::proofs::Stores::fresh_made), unfolding(crate::specs::InPlace::fresh_written))]
pub fn make(image: &mut [u8], connection: u64, ticket: u64)
    ensures { image.new ≡ fresh_written image.old connection ticket }
{
    if image.len() == OCTETS {
        image.fill(0);
        records::write_header(image, 0, Header::made(connection, ticket));
    }
}
