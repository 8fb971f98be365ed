// Images of servers: made, written, read, searched and tested. The rows are the lines of the file stdin; rows.rt says what a line may be.
// What they must print is in the file stdout, which expected.py makes from docs/IMAGE.md and document 01.
#![tactic(auto)]

ghost use Rattle.std.specs.Prelude.{◌≤◌, length};

use image::OCTETS;
use std::io;
use std::io::Read;

mod connections;
mod rows;
mod show;
mod sweep;

// So many octets of the input are read.
const MOST: usize = 65536;

fn main(rt: HostRuntime) -> io::Result<()> {
    let mut text = [0u8; MOST];
    let mut buffer = [0u8; OCTETS + 1];
    let mut kept = [0u8; 3 * (OCTETS + 1)];
    let end = read_full(&mut rt.reader(), &mut text);
    rows::run(&rt, octets::part(&text, 0, end), &mut buffer, &mut kept)
}

// Reads to the end of the input, or until text is full, and gives how many octets were read. A read that fails ends the input.
fn read_full(reader: &mut impl Read, text: &mut [u8]) -> usize
    ensures { result ≤ length text.new }
{
    let mut done: usize = 0;
    for _ in 0..text.len() {
        let n = reader.read(&mut text[done..]).unwrap_or(0);
        if n == 0 {
            break;
        }
        done += n;
    }
    done
}
