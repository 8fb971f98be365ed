// The parts of a server where they stand, each read by value and written from one. Any octets are read as some value.
#![tactic(auto, using(crate::proofs::Offsets::parts))]

ghost use Rattle.std.specs.Prelude.{◌≡◌, ◌+◌, ◌≤◌, length};
ghost use Rattle.std.proofs.Math.Option.{none, some};
ghost use Rattle.codec.specs.Stored.{stored};
ghost use Rattle.image.specs.Sizes.{phase_size, session_size, connection_size, slot_size, mechanism_size, header_size};
ghost use Rattle.image.specs.Layout.{slot};
ghost use Rattle.image.specs.Layout as Layout;
ghost use Rattle.image.specs.InPlace.{table_at};

use crate::OCTETS;
use crate::leaves::{read_flag, read_number, read_octets, write_flag, write_number, write_octets};
use crate::sizes::{
    CONNECTION_SESSION, HEADER_SEALED, HEADER_TICKET, MECHANISM, MECHANISM_CLIENT_FIRST,
    MECHANISM_NEEDS_PROTECTION, PHASE_SENT, PHASE_TICKET, SERVER_MECHANISMS, SESSION_NAME,
    SESSION_PHASE, SLOT,
};
use crate::slots::{AWAITING, IDLE, SIGNED_IN, WAITING};
use profile::Profile;
use server::{Connection, Header, Mechanism, Mechanisms};
use session::{Phase, Session};

// ---- a phase

pub(crate) fn read_phase(image: &[u8], at: usize) -> Phase
    requires { at + phase_size ≤ length image.now }
    ensures { result ≡ (Layout.phase).get image.now at }
{
    let sent = image[at + PHASE_SENT];
    let ticket = read_number(image, at + PHASE_TICKET);
    match image[at] {
        SIGNED_IN => Phase::SignedIn,
        AWAITING => Phase::Awaiting { sent },
        WAITING => Phase::Waiting { ticket, sent },
        _ => Phase::Idle,
    }
}

pub(crate) fn write_phase(image: &mut [u8], at: usize, phase: Phase)
    requires { at + phase_size ≤ length image.old }
    ensures { image.new ≡ stored image.old at ((Layout.phase).put phase) }
{
    let (number, sent, ticket) = match phase {
        Phase::Idle => (IDLE, 0, 0),
        Phase::SignedIn => (SIGNED_IN, 0, 0),
        Phase::Awaiting { sent } => (AWAITING, sent, 0),
        Phase::Waiting { ticket, sent } => (WAITING, sent, ticket),
    };
    image[at] = number;
    image[at + PHASE_SENT] = sent;
    write_number(image, at + PHASE_TICKET, ticket);
}

// ---- a session

pub(crate) fn read_session(image: &[u8], at: usize) -> Session
    requires { at + session_size ≤ length image.now }
    ensures { result ≡ (Layout.session).get image.now at }
{
    Session {
        name: read_octets(image, at + SESSION_NAME),
        profile: Profile::try_from(u64::from(image[at])).unwrap_or(Profile::Smtp),
        protected: read_flag(image, at + 1),
        greeted: read_flag(image, at + 2),
        transaction: read_flag(image, at + 3),
        phase: read_phase(image, at + SESSION_PHASE),
    }
}

pub(crate) fn write_session(image: &mut [u8], at: usize, session: Session)
    requires { at + session_size ≤ length image.old }
    ensures { image.new ≡ stored image.old at ((Layout.session).put session) }
{
    image[at] = session.profile as u8;
    write_flag(image, at + 1, session.protected);
    write_flag(image, at + 2, session.greeted);
    write_flag(image, at + 3, session.transaction);
    write_phase(image, at + SESSION_PHASE, session.phase);
    write_octets(image, at + SESSION_NAME, &session.name);
}

// ---- a connection and a slot

pub(crate) fn read_connection(image: &[u8], at: usize) -> Connection
    requires { at + connection_size ≤ length image.now }
    ensures { result ≡ (Layout.connection).get image.now at }
{
    Connection {
        session: read_session(image, at + CONNECTION_SESSION),
        number: read_number(image, at),
    }
}

pub(crate) fn write_connection(image: &mut [u8], at: usize, connection: Connection)
    requires { at + connection_size ≤ length image.old }
    ensures { image.new ≡ stored image.old at ((Layout.connection).put connection) }
{
    write_number(image, at, connection.number);
    write_session(image, at + CONNECTION_SESSION, connection.session);
}

// A slot that holds this connection.
pub(crate) fn write_open(image: &mut [u8], at: usize, connection: Connection)
    requires { at + slot_size ≤ length image.old }
    ensures { image.new ≡ stored image.old at (slot.put (some connection)) }
{
    image[at] = 1;
    write_connection(image, at + 1, connection);
}

pub(crate) fn write_free(image: &mut [u8], at: usize)
    requires { at + slot_size ≤ length image.old }
    ensures { image.new ≡ stored image.old at (slot.put none) }
{
    image[at..at + SLOT].fill(0);
}

// ---- a mechanism

pub(crate) fn read_mechanism(image: &[u8], at: usize) -> Mechanism
    requires { at + mechanism_size ≤ length image.now }
    ensures { result ≡ (Layout.mechanism).get image.now at }
{
    Mechanism {
        name: read_octets(image, at),
        client_first: read_flag(image, at + MECHANISM_CLIENT_FIRST),
        needs_protection: read_flag(image, at + MECHANISM_NEEDS_PROTECTION),
    }
}

pub(crate) fn write_mechanism(image: &mut [u8], at: usize, mechanism: Mechanism)
    requires { at + mechanism_size ≤ length image.old }
    ensures { image.new ≡ stored image.old at ((Layout.mechanism).put mechanism) }
{
    write_octets(image, at, &mechanism.name);
    write_flag(image, at + MECHANISM_CLIENT_FIRST, mechanism.client_first);
    write_flag(
        image,
        at + MECHANISM_NEEDS_PROTECTION,
        mechanism.needs_protection,
    );
}

// The table of mechanisms of an image.
pub(crate) fn read_table(image: &[u8; OCTETS]) -> Mechanisms
    ensures { result ≡ table_at image.now }
{
    Mechanisms {
        records: std::array::from_fn(|i| {
            read_mechanism(image, SERVER_MECHANISMS + 1 + i * MECHANISM)
        }),
        count: image[SERVER_MECHANISMS] as usize,
    }
}

// ---- a header

pub(crate) fn read_header(image: &[u8], at: usize) -> Header
    requires { at + header_size ≤ length image.now }
    ensures { result ≡ (Layout.header).get image.now at }
{
    Header {
        connection: read_number(image, at),
        ticket: read_number(image, at + HEADER_TICKET),
        sealed: read_flag(image, at + HEADER_SEALED),
    }
}

pub(crate) fn write_header(image: &mut [u8], at: usize, header: Header)
    requires { at + header_size ≤ length image.old }
    ensures { image.new ≡ stored image.old at ((Layout.header).put header) }
{
    write_number(image, at, header.connection);
    write_number(image, at + HEADER_TICKET, header.ticket);
    write_flag(image, at + HEADER_SEALED, header.sealed);
}
