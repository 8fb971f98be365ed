// A row is a line of the text: its first octet is its kind, and what stands after that and a space is its text. Words of a text have a space between
// them, and numbers are decimal. All rows are on one image, as the rows before left it.
//
// Rows that print nothing:
// #  is for who reads the rows, and so is an empty line
// N  the image has so many octets from here on
// X  each octet of the image is this number
// M  made, with the next connection's number and the next ticket
// H  the header: these two numbers, and sealed
// A  a mechanism: its index, its name, and its marks (c the client speaks first, p it needs protection, - none)
// S  a connection: its slot, its number, its marks (3 POP3, p protected, g greeted, t in a transaction, - none), its phase by the first letter
//    (idle, signed, awaiting, waiting), the challenges sent, the ticket, and the name; what is left out at the end is 0 or empty
// F  a slot is free
// K  the image is kept at a place, 0 to 2
// R  the image is again the one that is kept at a place
//
// Rows that print their text, and then:
// "  nothing more
// .  whether the image is taken
// ,  the same, with no end of line
// >  the same, and the octets that are others than in the image that is kept at 0, where this one is kept from now on
// c t f    where a search ended: for a connection's number, for a ticket, for a free slot
// h m o s  what is read: the header, how many mechanisms there are, what is offered under the name in quotes, a slot
// ~  how many are taken of the images with one bit turned, from an offset up to another, and the sum of these offsets
//
// Rows that print no text, or another:
// r  a record of the mechanisms, by its index
// @  whether the image is taken with other octets: the offset of a record, the offset in it, the octets in xtext (two spaces where there are none),
//    and the text, which is printed before the offset and the octets
//
// What is not read or not done is printed as that: octets that are not xtext, a row of any other kind, a row on an image of more
// than 5,763 octets.
use crate::connections::{connection, has};
use crate::{show, sweep};
use image::OCTETS;
use server::{Header, Mechanism};
use std::io;
use textvectors::show::Quoted;
use textvectors::words::{index, number, octet, rest, word};

fn seal(text: &[u8], image: &mut [u8]) {
    let header = Header {
        connection: number(text, 0),
        ticket: number(text, 1),
        sealed: true,
    };
    image::write_header(image, header);
}

fn add(text: &[u8], image: &mut [u8]) {
    let mechanism = Mechanism::new(word(text, 1), has(text, 2, b'c'), has(text, 2, b'p'));
    image::write_mechanism(image, index(text, 0), mechanism);
}

fn hold(text: &[u8], image: &mut [u8]) {
    image::write_connection(image, index(text, 0), connection(text));
}

// Where in the octets that are kept.
fn place(text: &[u8]) -> usize {
    index(text, 0) % 3 * (OCTETS + 1)
}

fn keep(image: &[u8], kept: &mut [u8], at: usize) {
    octets::write(image, kept, at);
}

fn bring(image: &mut [u8], kept: &[u8], at: usize) {
    let to = at.wrapping_add(image.len());
    octets::write(octets::part(kept, at, to), image, 0);
}

fn tested(rt: &impl Print, text: &[u8], image: &[u8]) -> io::Result<()> {
    rt.write_all(text)?;
    show::taken(rt, image)
}

fn changed(rt: &impl Print, text: &[u8], image: &[u8], kept: &mut [u8]) -> io::Result<()> {
    tested(rt, text, image)?;
    show::changes(rt, kept, image)?;
    octets::write(image, kept, 0);
    Ok(())
}

// An image with other octets at an offset.
fn damaged(rt: &impl Print, image: &[u8], at: usize, bytes: &[u8]) -> io::Result<()> {
    let mut other = [0u8; OCTETS];
    octets::write(image, &mut other, 0);
    octets::write(bytes, &mut other, at);
    print!(rt; ", {at} {}", Quoted(bytes))?;
    show::taken(rt, &other)
}

fn damage(rt: &impl Print, text: &[u8], image: &[u8]) -> io::Result<()> {
    let mut bytes = [0u8; 87];
    let at = index(text, 0).wrapping_add(index(text, 1));
    rt.write_all(rest(text, 3))?;
    match xtext::decode(word(text, 2), &mut bytes) {
        Ok(n) => damaged(rt, image, at, octets::part(&bytes, 0, n)),
        Err(_) => print!(rt; ": not read"),
    }
}

fn find(kind: u8, n: u64, image: &[u8]) -> Option<usize> {
    match kind {
        b'c' => image::find_connection(image, n),
        b't' => image::find_ticket(image, n),
        _ => image::find_free(image),
    }
}

// What is read of the image, n being the text's number.
fn read(rt: &impl Print, kind: u8, text: &[u8], n: u64, image: &[u8]) -> io::Result<()> {
    match kind {
        b'h' => show::header(rt, image),
        b'm' => show::count(rt, image),
        b'o' => show::offer(
            rt,
            image,
            octets::part(text, 7, octets::find(text, 7, b'"')),
        ),
        b's' => show::connection(rt, image, n as usize),
        b'~' => sweep::run(rt, image, n as usize, index(text, 3)),
        _ => print!(rt; ": not done"),
    }
}

fn answer(rt: &impl Print, kind: u8, text: &[u8], image: &[u8]) -> io::Result<()> {
    let n = number(text, 1);
    rt.write_all(text)?;
    match kind {
        b'"' => Ok(()),
        b'.' => show::taken(rt, image),
        b'c' | b't' | b'f' => show::found(rt, find(kind, n, image)),
        _ => read(rt, kind, text, n, image),
    }
}

// A row that prints, and the end of its line.
fn told(rt: &impl Print, kind: u8, text: &[u8], image: &[u8]) -> io::Result<()> {
    match kind {
        b'@' => damage(rt, text, image)?,
        b'r' => show::record(rt, image, index(text, 0))?,
        _ => answer(rt, kind, text, image)?,
    }
    println!(rt)
}

// Writes the image; a row that only looks at it prints.
fn on_image(rt: &impl Print, kind: u8, text: &[u8], image: &mut [u8]) -> io::Result<()> {
    let n = number(text, 0);
    match kind {
        0 | b'#' => {}
        b'X' => image.fill((n % 256) as u8),
        b'M' => image::make(image, n, number(text, 1)),
        b'H' => seal(text, image),
        b'A' => add(text, image),
        b'S' => hold(text, image),
        b'F' => image::free_slot(image, n as usize),
        b',' => tested(rt, text, image)?,
        _ => told(rt, kind, text, image)?,
    }
    Ok(())
}

fn event(
    rt: &impl Print,
    kind: u8,
    text: &[u8],
    image: &mut [u8],
    kept: &mut [u8],
) -> io::Result<()> {
    match kind {
        b'K' => keep(image, kept, place(text)),
        b'R' => bring(image, kept, place(text)),
        b'>' => changed(rt, text, image, kept)?,
        _ => on_image(rt, kind, text, image)?,
    }
    Ok(())
}

// A row on the first n octets of the buffer. Gives how many the next row is on.
fn row(
    rt: &impl Print,
    line: &[u8],
    n: usize,
    buffer: &mut [u8],
    kept: &mut [u8],
) -> io::Result<usize> {
    let kind = octet(line, 0);
    let text = octets::part(line, 2, line.len());
    if kind == b'N' {
        return Ok(index(text, 0));
    }
    match buffer.get_mut(..n) {
        Some(image) => event(rt, kind, text, image, kept)?,
        None => println!(rt; "not done")?,
    }
    Ok(n)
}

pub(crate) fn run(
    rt: &impl Print,
    text: &[u8],
    buffer: &mut [u8],
    kept: &mut [u8],
) -> io::Result<()> {
    let mut n = OCTETS;
    for piece in text.split_inclusive(|x| *x == b'\n') {
        let line = piece.strip_suffix(b"\n").unwrap_or(piece);
        n = row(rt, line, n, buffer, kept)?;
    }
    Ok(())
}
