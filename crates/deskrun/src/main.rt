// Runs a script of calls on standard input against a desk of its own, and prints a line for each (docs/DESKRUN.md).
#![tactic(auto)]

use input::Script;
use std::io;
use std::io::Read;

mod call;
mod input;
mod row;
mod transcript;

// So many octets are read, and are written, at a time.
const BLOCK: usize = 65536;

fn main(rt: HostRuntime) -> io::Result<()> {
    let mut script = Script::new();
    run(&rt, &mut rt.reader(), &mut script)
}

// Block after block to the end of the input. Nothing shows that it ends, so the blocks are counted. A read that fails ends the script, as the end of the
// input does.
fn run(rt: &impl Print, reader: &mut impl Read, script: &mut Script) -> io::Result<()> {
    let mut block = [0u8; BLOCK];
    for _ in 0..u64::MAX {
        match reader.read(&mut block).unwrap_or(0) {
            0 => break,
            n => script.run_block(rt, &block[..n])?,
        }
    }
    script.run_last(rt)
}
