// The lines of a script, as blocks of it come in.
use crate::call::Desk;
use crate::row::Row;
use crate::transcript::Transcript;
use script::command::read;
use script::kept::Kept;
use std::io;

// So many octets of a script line are kept, at the least 12,287 of its text, in hexadecimal too: a text of more than 12,286 octets is too long
// wherever a call takes one, whatever it holds.
const KEPT: usize = 32768;

// The desk of a script, the line that is read, and the transcript.
#[derive(Drop)]
pub(crate) struct Script {
    pub desk: Desk,
    pub line: [u8; KEPT],
    pub kept: Kept,
    pub transcript: Transcript,
}

impl Script {
    pub(crate) fn new() -> Script {
        Script {
            desk: Desk::new(),
            line: [0; KEPT],
            kept: Kept::started(),
            transcript: Transcript::new(),
        }
    }

    // Runs each line that ends in a block, and keeps the one that the block ends in.
    pub(crate) fn run_block(&mut self, rt: &impl Print, block: &[u8]) -> io::Result<()> {
        for piece in block.split_inclusive(|x| *x == b'\n') {
            match piece {
                [text @ .., b'\n'] => {
                    self.add(text);
                    self.run_line(rt)?;
                }
                text => self.add(text),
            }
        }
        self.transcript.flush(rt)
    }

    // A last line without LF is run.
    pub(crate) fn run_last(&mut self, rt: &impl Print) -> io::Result<()> {
        if self.kept.length == 0 {
            return Ok(());
        }
        self.run_line(rt)?;
        self.transcript.flush(rt)
    }

    // More octets of the line.
    fn add(&mut self, more: &[u8]) {
        self.kept = self.kept.added(more, &mut self.line);
    }

    // Runs the line, and begins the next.
    fn run_line(&mut self, rt: &impl Print) -> io::Result<()> {
        let text = octets::part(&self.line, 0, self.kept.length);
        let row = match read(text, self.kept.rest) {
            Some(command) => self.desk.run(text, command),
            None => Row::Unreadable,
        };
        self.kept = Kept::started();
        self.transcript.with_room(rt)?;
        self.transcript
            .row(row, &self.desk.reply, &self.desk.answer);
        Ok(())
    }
}
