// Lines at the limits, too long to be printed.
use crate::show::{Length, Says};
use lines::command::read_command;
use lines::response::read_response;
use profile::Profile;
use std::io;
use textvectors::show::Quoted;

// A line of so many octets, of which the beginning is printed.
fn row(rt: &impl Print, p: Profile, begin: &[u8], size: usize, text: &[u8]) -> io::Result<()> {
    let command = read_command(p, octets::part(text, 0, size));
    println!(rt;
        "{p} {} and letters, {size} octets: {}",
        Quoted(begin),
        Says(command)
    )
}

// A beginning and letters up to so many octets.
pub(crate) fn line(rt: &impl Print, p: Profile, begin: &[u8], size: usize) -> io::Result<()> {
    let mut text = [b'A'; 1024];
    octets::write(begin, &mut text, 0);
    row(rt, p, begin, size, &text)
}

// A MAIL line whose path ends the line.
pub(crate) fn mail(rt: &impl Print, p: Profile, size: usize) -> io::Result<()> {
    let mut text = [b'A'; 1024];
    octets::write(b"MAIL FROM:<", &mut text, 0);
    if let Some(last) = text.get_mut(size.wrapping_sub(1)) {
        *last = b'>';
    }
    row(rt, p, b"MAIL FROM:<", size, &text)
}

pub(crate) fn response(rt: &impl Print, p: Profile, size: usize) -> io::Result<()> {
    let text = [b'A'; 12288];
    let length = Length(read_response(p, octets::part(&text, 0, size)));
    println!(rt; "{p} response of {size} letters: {length}")
}

// A line far over every limit.
pub(crate) fn huge(rt: &impl Print, p: Profile) -> io::Result<()> {
    let text = [b'A'; 100000];
    let length = Length(read_response(p, &text));
    println!(rt;
        "{p} response of 100000 letters: {length}, as a command {}",
        Says(read_command(p, &text))
    )
}
