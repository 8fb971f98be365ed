// What a client hears: every text of document 01's table, for both profiles.
use profile::{Profile, Reply};
use std::io;
use textvectors::show::Quoted;

// The events, each with the word that its row prints.
const EVENTS: [(Reply, &str); 12] = [
    (Reply::Success, "success"),
    (Reply::Transition, "transition"),
    (Reply::Temporary, "temporary"),
    (Reply::Weak, "weak"),
    (Reply::Rejected, "rejected"),
    (Reply::ResponseTooLong, "answer too long"),
    (Reply::NotUnderstood, "command too long"),
    (Reply::Syntax, "grammar or base64"),
    (Reply::Cancelled, "\"*\""),
    (Reply::InitialResponse, "initial response"),
    (Reply::WrongMoment, "wrong moment"),
    (Reply::Unavailable, "mechanism absent"),
];

// What was written to the start of a row of dots.
fn row(
    rt: &impl Print,
    p: Profile,
    word: &str,
    written: Option<usize>,
    dots: &[u8],
) -> io::Result<()> {
    match written {
        Some(n) => println!(rt; "{p} {word}: {}", Quoted(octets::part(dots, 0, n))),
        None => println!(rt; "{p} {word}: short"),
    }
}

fn reply(rt: &impl Print, p: Profile, event: Reply, word: &str) -> io::Result<()> {
    let mut dots = [b'.'; 64];
    let written = p.say(event, &mut dots);
    row(rt, p, word, written, &dots)
}

fn challenge(rt: &impl Print, p: Profile) -> io::Result<()> {
    let mut dots = [b'.'; 64];
    let written = p.begin_challenge(&mut dots);
    row(rt, p, "challenge begins", written, &dots)
}

pub(crate) fn run(rt: &impl Print) -> io::Result<()> {
    for (event, word) in EVENTS {
        reply(rt, Profile::Smtp, event, word)?;
        reply(rt, Profile::Pop3, event, word)?;
    }
    challenge(rt, Profile::Smtp)?;
    challenge(rt, Profile::Pop3)
}
