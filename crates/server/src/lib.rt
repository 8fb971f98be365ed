// The server (document 01: the desk): 64 slots, one connection each, the mechanisms, and the numbers to issue next.
//
// No value of this crate is a whole server: whoever keeps one hands over the header, the table of mechanisms or one connection by value.
#![tactic(auto)]

ghost use Rattle.std.specs.Prelude.{◌≡◌};
ghost use Rattle.server.specs.Make.{made};

use lines::mechanism::LONGEST_MECHANISM;
use session::Session;

mod table;

// A server has at most so many mechanisms.
pub const MOST_MECHANISMS: usize = 8;

// What a server has once: the next connection's number, the next ticket, and whether it is sealed (document 01: adding has ended).
#[derive(Clone, Copy, Debug, PartialEq, Eq)]
pub struct Header {
    pub connection: u64,
    pub ticket: u64,
    pub sealed: bool,
}

// A mechanism: its name in twenty octets, padded with NUL, whether the client speaks first, whether it needs a protected connection.
#[derive(Clone, Copy, Debug, PartialEq, Eq)]
pub struct Mechanism {
    pub name: [u8; LONGEST_MECHANISM],
    pub client_first: bool,
    pub needs_protection: bool,
}

// The table of mechanisms: the first `count` records. An array and a count, since the library has no heap and a server's memory is fixed.
#[derive(Clone, Copy, Debug, PartialEq, Eq)]
pub struct Mechanisms {
    pub records: [Mechanism; MOST_MECHANISMS],
    pub count: usize,
}

// An open connection: its number and its session.
#[derive(Clone, Copy, Debug, PartialEq, Eq)]
pub struct Connection {
    pub session: Session,
    pub number: u64,
}

impl Header {
    // A server that was just made.
    pub fn made(connection: u64, ticket: u64) -> Header
        ensures { result ≡ made connection ticket }
    {
        Header {
            connection,
            ticket,
            sealed: false,
        }
    }
}
