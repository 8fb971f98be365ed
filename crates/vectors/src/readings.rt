// One row of output for a line, read by the rules of a profile.
use crate::show::{Length, Says};
use lines::auth::{Auth, decode_initial, decode_initial_unchecked, name_at};
use lines::command::{Command, read_command};
use lines::response::read_response;
use mail::Mail;
use octets::DecodeError;
use profile::Profile;
use std::io;
use textvectors::show::Quoted;

// The octets that a text was decoded to.
fn octets_of(rt: &impl Print, d: Result<usize, DecodeError>, out: &[u8]) -> io::Result<()> {
    match d {
        Ok(n) => print!(rt; ", {}", Quoted(octets::part(out, 0, n))),
        Err(e) => print!(rt; ", {e}"),
    }
}

// The mechanism's name in its twenty octets, and the octets of an initial response.
fn parts_of_auth(rt: &impl Print, line: &[u8], auth: Auth) -> io::Result<()> {
    print!(rt; ", {}", Quoted(&name_at(line, Some(auth))))?;
    match auth {
        Auth::Alone { .. } => Ok(()),
        Auth::Initial { .. } => initial_of(rt, line, auth),
    }
}

fn initial_of(rt: &impl Print, line: &[u8], auth: Auth) -> io::Result<()> {
    let mut out = [0u8; 64];
    let mut unchecked = [0u8; 64];
    let decoded = decode_initial(line, Some(auth), &mut out);
    octets_of(rt, decoded, &out)?;
    decode_initial_unchecked(line, Some(auth), &mut unchecked);
    if out != unchecked {
        print!(rt; ", unchecked others")?;
    }
    Ok(())
}

// The octets of an address.
fn parts_of_mail(rt: &impl Print, line: &[u8], mail: Mail) -> io::Result<()> {
    let mut out = [0u8; 64];
    match mail {
        Mail::Absent | Mail::Null => Ok(()),
        Mail::Address { .. } => {
            let decoded = mail::decode_address(line, Some(mail), &mut out);
            octets_of(rt, decoded, &out)
        }
    }
}

// What an AUTH line, or a MAIL line, has beside its numbers.
fn parts_of(rt: &impl Print, line: &[u8], command: Command) -> io::Result<()> {
    match command {
        Command::Mail(Some(mail)) => parts_of_mail(rt, line, mail),
        Command::Auth(Some(auth)) => parts_of_auth(rt, line, auth),
        _ => Ok(()),
    }
}

pub(crate) fn line(rt: &impl Print, p: Profile, text: &[u8]) -> io::Result<()> {
    let command = read_command(p, text);
    print!(rt; "{p} {}: {}", Quoted(text), Says(command))?;
    parts_of(rt, text, command)?;
    println!(rt)
}

pub(crate) fn response(rt: &impl Print, p: Profile, text: &[u8]) -> io::Result<()> {
    let mut out = [0u8; 64];
    let length = read_response(p, text);
    print!(rt; "{p} response {}: {}", Quoted(text), Length(length))?;
    if length.is_ok() {
        octets_of(rt, base64text::decode(text, &mut out), &out)?;
    }
    println!(rt)
}
