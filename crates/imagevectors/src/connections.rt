// What the words of a row say: marks, and what a connection is made of.
use profile::Profile;
use server::Connection;
use session::{Phase, Session};
use textvectors::words::{number, octet, word};

fn small(row: &[u8], i: usize) -> u8 {
    (number(row, i) % 256) as u8
}

// Whether word i has a mark.
pub(crate) fn has(row: &[u8], i: usize, mark: u8) -> bool {
    word(row, i).contains(&mark)
}

fn profile(row: &[u8]) -> Profile {
    if has(row, 2, b'3') {
        Profile::Pop3
    } else {
        Profile::Smtp
    }
}

fn phase(row: &[u8]) -> Phase {
    let sent = small(row, 4);
    match octet(word(row, 3), 0) {
        b's' => Phase::SignedIn,
        b'a' => Phase::Awaiting { sent },
        b'w' => Phase::Waiting {
            ticket: number(row, 5),
            sent,
        },
        _ => Phase::Idle,
    }
}

fn name(row: &[u8]) -> [u8; Session::LONGEST_NAME] {
    let mut name = [0u8; Session::LONGEST_NAME];
    octets::write(word(row, 6), &mut name, 0);
    name
}

pub(crate) fn connection(row: &[u8]) -> Connection {
    let session = Session {
        name: name(row),
        profile: profile(row),
        protected: has(row, 2, b'p'),
        greeted: has(row, 2, b'g'),
        transaction: has(row, 2, b't'),
        phase: phase(row),
    };
    Connection {
        session,
        number: number(row, 1),
    }
}
