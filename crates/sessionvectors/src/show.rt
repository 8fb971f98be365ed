// What a step gives, and how the session stands after it, as rows print it.
use octets::DecodeError;
use profile::Profile;
use profile::numbers::Identity;
use session::answer::{Answer, Numbers};
use session::view::View;
use session::{Phase, Session};
use std::{fmt, io};
use textvectors::show::Quoted;

// Octets, or how many they are where they are more than a row holds.
#[derive(Clone, Copy)]
struct Octets<'a>(&'a [u8]);

impl fmt::Display for Octets<'_> {
    fn fmt<W: fmt::Write>(&self, f: &mut fmt::Formatter<W>) -> fmt::Result {
        match self.0.len() {
            0..=100 => write!(f, "{}", Quoted(self.0)),
            n => write!(f, "{n} octets"),
        }
    }
}

// Every number of an answer.
#[derive(Clone, Copy)]
struct All(Numbers);

impl fmt::Display for All {
    fn fmt<W: fmt::Write>(&self, f: &mut fmt::Formatter<W>) -> fmt::Result {
        let n = self.0;
        write!(
            f,
            " ({} {} {} {} {} {})",
            n.refusal, n.kind, n.ticket, n.starts, n.length, n.identity
        )
    }
}

fn decoded(rt: &impl Print, d: Result<usize, DecodeError>, out: &[u8]) -> io::Result<()> {
    match d {
        Ok(n) => print!(rt; "{}", Octets(octets::part(out, 0, n))),
        Err(e) => print!(rt; "{e}"),
    }
}

// The octets of a line that a query or a MAIL hands on.
fn response(rt: &impl Print, view: View, line: &[u8]) -> io::Result<()> {
    let mut out = [0u8; 9213];
    let mut unchecked = [0u8; 9213];
    let d = view.decode_response(line, &mut out);
    decoded(rt, d, &out)?;
    view.decode_response_unchecked(line, &mut unchecked);
    if out != unchecked {
        print!(rt; ", unchecked others")?;
    }
    Ok(())
}

fn address(rt: &impl Print, view: View, line: &[u8]) -> io::Result<()> {
    let mut out = [0u8; 9213];
    let d = view.decode_address(line, &mut out);
    decoded(rt, d, &out)
}

fn identity(rt: &impl Print, i: Identity, view: View, line: &[u8]) -> io::Result<()> {
    match i {
        Identity::NoMail => print!(rt; "forward"),
        Identity::Null => print!(rt; "forward <>"),
        Identity::Absent => print!(rt; "forward none"),
        Identity::Address => {
            print!(rt; "forward address ")?;
            address(rt, view, line)
        }
    }
}

fn heard(rt: &impl Print, a: Answer, p: Profile, bytes: &[u8]) -> io::Result<()> {
    let mut out = [0u8; 12288];
    match a.say(p, bytes, &mut out) {
        Some(n) => print!(rt; "{}{}", Octets(octets::part(&out, 0, n)), All(a.numbers(n))),
        None => print!(rt; "short"),
    }
}

// An answer to a line, or to a verdict with these octets.
pub(crate) fn answer(
    rt: &impl Print,
    a: Answer,
    p: Profile,
    bytes: &[u8],
    view: View,
    line: &[u8],
) -> io::Result<()> {
    match a {
        Answer::Refused(_) => print!(rt; "refused")?,
        Answer::Forward { identity: i, .. } => identity(rt, i, view, line)?,
        Answer::Query { .. } => {
            print!(rt; "query ")?;
            response(rt, view, line)?;
        }
        Answer::Reply(_) | Answer::EmptyChallenge | Answer::Challenge => {
            return heard(rt, a, p, bytes);
        }
    }
    print!(rt; "{}", All(a.numbers(0)))
}

fn name(rt: &impl Print, s: Session) -> io::Result<()> {
    let mut out = [0u8; 64];
    match s.write_name(&mut out) {
        Some(n) => print!(rt; "; {}", Octets(octets::part(&out, 0, n))),
        None => print!(rt; "; short"),
    }
}

pub(crate) fn stands(rt: &impl Print, s: Session) -> io::Result<()> {
    match s.phase {
        Phase::Idle => print!(rt; "; idle")?,
        Phase::SignedIn => name(rt, s)?,
        Phase::Awaiting { sent } => print!(rt; "; awaiting {sent}")?,
        Phase::Waiting { ticket, sent } => print!(rt; "; waiting {ticket} {sent}")?,
    }
    let greeted = if s.greeted { ", greeted" } else { "" };
    let transaction = if s.transaction { ", transaction" } else { "" };
    println!(rt; "{greeted}{transaction}")
}
