// How many of all 256 octets a rule takes at a place of a line.
use lines::command::Command;
use profile::Profile;
use std::io;
use textvectors::show::Quoted;

// Whether a line was understood and of its form.
fn is_read(c: Command) -> bool {
    !matches!(
        c,
        Command::NotUnderstood | Command::Malformed | Command::Auth(None) | Command::Mail(None)
    )
}

// Whether a line is read with x at a place.
fn is_read_with(p: Profile, line: &[u8], place: usize, x: u8) -> bool {
    let mut other = [0u8; 64];
    octets::write(line, &mut other, 0);
    if let Some(octet) = other.get_mut(place) {
        *octet = x;
    }
    is_read(lines::command::read_command(p, octets::part(&other, 0, line.len())))
}

fn count(p: Profile, line: &[u8], place: usize) -> usize {
    (0..=u8::MAX)
        .filter(|x| is_read_with(p, line, place, *x))
        .count()
}

pub(crate) fn with_each(rt: &impl Print, p: Profile, line: &[u8], place: usize) -> io::Result<()> {
    println!(rt;
        "{p} {} with each octet at {place}, read: {}",
        Quoted(line),
        count(p, line, place)
    )
}
