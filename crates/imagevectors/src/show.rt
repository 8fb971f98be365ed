// What is read from images, and where a search ended, as rows print it.
use lines::mechanism::name_of;
use server::Mechanism;
use session::{Phase, Session};
use std::{fmt, io};
use textvectors::show::Quoted;

// A text where something holds, and nothing where not.
fn word(is: bool, text: &str) -> &str {
    if is { text } else { "" }
}

// ---- an image

pub(crate) fn taken(rt: &impl Print, image: &[u8]) -> io::Result<()> {
    print!(rt; ": {}taken", word(!image::is_taken(image), "not "))
}

// The octets that are others than before, in rows of at most sixteen with no gap, each after the first one's offset.
pub(crate) fn changes(rt: &impl Print, before: &[u8], image: &[u8]) -> io::Result<()> {
    let mut row: usize = 0;
    for (i, x) in image.iter().enumerate() {
        if before.get(i).copied().unwrap_or(0) == *x {
            row = 0;
            continue;
        }
        if row % 16 == 0 {
            print!(rt; "\n  {i}:")?;
        }
        print!(rt; " {x:02x}")?;
        row = row % 16 + 1;
    }
    println!(rt)
}

// ---- what is read

pub(crate) fn header(rt: &impl Print, image: &[u8]) -> io::Result<()> {
    let h = image::read_header(image);
    print!(rt;
        ": {} {}{}",
        h.connection,
        h.ticket,
        word(h.sealed, " sealed")
    )
}

// How many mechanisms there are.
pub(crate) fn count(rt: &impl Print, image: &[u8]) -> io::Result<()> {
    print!(rt; ": {}", image::read_mechanisms(image).count)
}

fn mechanism(rt: &impl Print, m: Mechanism) -> io::Result<()> {
    let first = word(m.client_first, " client first");
    let protection = word(m.needs_protection, " needs protection");
    print!(rt; "{}{first}{protection}", Quoted(&m.name))
}

// A record of the table of mechanisms.
pub(crate) fn record(rt: &impl Print, image: &[u8], i: usize) -> io::Result<()> {
    match image::read_mechanisms(image).records.get(i) {
        Some(m) => mechanism(rt, *m),
        None => Ok(()),
    }
}

pub(crate) fn offer(rt: &impl Print, image: &[u8], name: &[u8]) -> io::Result<()> {
    match image::read_mechanisms(image).offer(name_of(name)) {
        Some(o) => {
            let first = word(o.client_first, ", client first");
            let protection = word(o.needs_protection, ", needs protection");
            print!(rt; ": present{first}{protection}")
        }
        None => print!(rt; ": absent"),
    }
}

// Where a session stands.
#[derive(Clone, Copy)]
struct Stands(Phase);

impl fmt::Display for Stands {
    fn fmt<W: fmt::Write>(&self, f: &mut fmt::Formatter<W>) -> fmt::Result {
        match self.0 {
            Phase::Idle => f.write_str("idle"),
            Phase::SignedIn => f.write_str("signed in"),
            Phase::Awaiting { sent } => write!(f, "awaiting {sent}"),
            Phase::Waiting { ticket, sent } => write!(f, "waiting {ticket} {sent}"),
        }
    }
}

fn session(rt: &impl Print, s: Session) -> io::Result<()> {
    let protected = word(s.protected, " protected");
    let greeted = word(s.greeted, " greeted");
    let transaction = word(s.transaction, " transaction");
    let name = octets::part(&s.name, 0, octets::find(&s.name, 0, 0));
    print!(rt;
        " {}{protected}{greeted}{transaction}, {}, {}",
        s.profile,
        Stands(s.phase),
        Quoted(name)
    )
}

pub(crate) fn connection(rt: &impl Print, image: &[u8], i: usize) -> io::Result<()> {
    let c = image::read_connection(image, i);
    print!(rt; ": {}", c.number)?;
    session(rt, c.session)
}

// ---- where a search ended

pub(crate) fn found(rt: &impl Print, place: Option<usize>) -> io::Result<()> {
    match place {
        Some(i) => print!(rt; ": slot {i}"),
        None => print!(rt; ": nothing"),
    }
}
