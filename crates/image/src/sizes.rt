// How many octets each part of an image takes, and where the larger parts stand in it, as in specs/Sizes.antt.
use lines::mechanism::LONGEST_MECHANISM;
use server::MOST_MECHANISMS;
use session::Session;

pub(crate) const MOST_CONNECTIONS: usize = 64;

// A connection's number, or a ticket.
pub(crate) const NUMBER: usize = 8;

// A phase is which one it is, the challenges sent, the ticket.
pub(crate) const PHASE_SENT: usize = 1;

pub(crate) const PHASE_TICKET: usize = 2;

pub(crate) const PHASE: usize = PHASE_TICKET + NUMBER;

pub(crate) const SESSION_PHASE: usize = 4;

pub(crate) const SESSION_NAME: usize = SESSION_PHASE + PHASE;

// What a session has from its phase on.
pub(crate) const PHASED: usize = PHASE + Session::LONGEST_NAME;

pub(crate) const SESSION: usize = SESSION_PHASE + PHASED;

pub(crate) const CONNECTION_SESSION: usize = NUMBER;

pub(crate) const CONNECTION: usize = CONNECTION_SESSION + SESSION;

pub(crate) const SLOT: usize = 1 + CONNECTION;

// The two flags of a mechanism stand after its name.
pub(crate) const MECHANISM_CLIENT_FIRST: usize = LONGEST_MECHANISM;

pub(crate) const MECHANISM_NEEDS_PROTECTION: usize = LONGEST_MECHANISM + 1;

pub(crate) const MECHANISM: usize = LONGEST_MECHANISM + 2;

pub(crate) const HEADER_TICKET: usize = NUMBER;

pub(crate) const HEADER_SEALED: usize = HEADER_TICKET + NUMBER;

pub(crate) const HEADER: usize = HEADER_SEALED + 1;

pub(crate) const SERVER_MECHANISMS: usize = HEADER;

pub(crate) const SERVER_SLOTS: usize = SERVER_MECHANISMS + (1 + MOST_MECHANISMS * MECHANISM);
