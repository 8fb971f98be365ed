// A slot tested where it stands.
#![tactic(auto, using(crate::proofs::Places::slots))]

ghost use Rattle.std.specs.Prelude.{◌≡◌, ◌+◌, ◌≤◌, length};
ghost use Rattle.server.specs.Slots.{is_numbered, is_waiting, is_free, holding};
ghost use Rattle.image.specs.Sizes.{slot_size};
ghost use Rattle.image.specs.Layout.{slot};

use crate::leaves::{read_flag, read_number};
use crate::sizes::{CONNECTION_SESSION, PHASE_TICKET, SESSION_PHASE};

// Where the number of a slot's connection stands, counted from the slot's start, its phase, and the ticket that it waits on.
pub(crate) const SLOT_NUMBER: usize = 1;

pub(crate) const SLOT_PHASE: usize = 1 + CONNECTION_SESSION + SESSION_PHASE;

pub(crate) const SLOT_TICKET: usize = SLOT_PHASE + PHASE_TICKET;

// The octets that stand for the phases. Constants and no enum: an octet of an image may be any, and it is told where it stands.
pub(crate) const IDLE: u8 = 0;

pub(crate) const SIGNED_IN: u8 = 1;

pub(crate) const AWAITING: u8 = 2;

pub(crate) const WAITING: u8 = 3;

pub(crate) fn is_free(image: &[u8], at: usize) -> bool
    requires { at + slot_size ≤ length image.now }
    ensures { result ≡ is_free (slot.get image.now at) }
{
    !read_flag(image, at)
}

// Whether it holds the connection with this number.
pub(crate) fn is_numbered(image: &[u8], at: usize, number: u64) -> bool
    requires { at + slot_size ≤ length image.now }
    ensures { result ≡ holding (is_numbered number) (slot.get image.now at) }
{
    read_flag(image, at) && read_number(image, at + SLOT_NUMBER) == number
}

// Whether it holds a connection that waits on this ticket.
pub(crate) fn is_waiting(image: &[u8], at: usize, ticket: u64) -> bool
    requires { at + slot_size ≤ length image.now }
    ensures { result ≡ holding (is_waiting ticket) (slot.get image.now at) }
{
    read_flag(image, at)
        && image[at + SLOT_PHASE] == WAITING
        && read_number(image, at + SLOT_TICKET) == ticket
}
