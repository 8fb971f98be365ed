// The lines of a transcript, put together in a buffer.
ghost use Rattle.std.specs.Prelude.{◌≡◌, length};
ghost use Rattle.octets.specs.Answers.{written};
ghost use Rattle.deskrun.specs.Transcript.{after};

use crate::BLOCK;
use crate::row::Row;
use itoa::Buffer;
use std::io;

// A line of a transcript is shorter: the longest is a reply of 12,288 octets with a word before it.
const LONGEST: usize = 16384;

// What is not written yet: the octets of out before an index.
#[derive(Drop)]
pub(crate) struct Transcript {
    pub out: [u8; BLOCK],
    pub at: usize,
}

// The first octets of a buffer.
fn first(buffer: &[u8], length: u64) -> &[u8] {
    octets::part(buffer, 0, length as usize)
}

impl Transcript {
    pub(crate) fn new() -> Transcript {
        Transcript {
            out: [0; BLOCK],
            at: 0,
        }
    }

    // Writes what there is to standard output.
    pub(crate) fn flush(&mut self, rt: &impl Print) -> io::Result<()> {
        rt.write_all(octets::part(&self.out, 0, self.at))?;
        self.at = 0;
        Ok(())
    }

    // Makes room for any line of a transcript.
    pub(crate) fn with_room(&mut self, rt: &impl Print) -> io::Result<()> {
        if self.at <= BLOCK - LONGEST {
            return Ok(());
        }
        self.flush(rt)
    }

    // A text.
    fn put(&mut self, text: &[u8])
        ensures at { self.new.at ≡ after self.old.at text.now (length self.old.out) }
        ensures out { self.new.out ≡ written self.old.out self.old.at text.now }
    {
        self.at = octets::write(text, &mut self.out, self.at).unwrap_or(self.at);
    }

    fn number(&mut self, n: u64) {
        let mut digits = Buffer::new();
        self.put(digits.format(n).as_bytes());
    }

    // A line: a word.
    fn word(&mut self, word: &[u8]) {
        self.put(word);
        self.put(b"\n");
    }

    // A line: a word and a text.
    fn texted(&mut self, word: &[u8], text: &[u8]) {
        self.put(word);
        self.word(text);
    }

    // A line: a word and a number.
    fn numbered(&mut self, word: &[u8], n: u64) {
        self.put(word);
        self.number(n);
        self.put(b"\n");
    }

    fn ask(&mut self, ticket: u64, length: u64) {
        self.put(b"ask ");
        self.number(ticket);
        self.numbered(b" ", length);
    }

    // An address is printed in xtext, so that no client can forge a line of the transcript.
    fn address(&mut self, bytes: &[u8]) {
        self.put(b"pass address ");
        self.number(bytes.len() as u64);
        self.put(b" ");
        self.at = xtext::encode(bytes, &mut self.out, self.at).unwrap_or(self.at);
        self.put(b"\n");
    }

    // A line of the transcript, with the buffers that its call left.
    pub(crate) fn row(&mut self, row: Row, reply: &[u8], answer: &[u8]) {
        match row {
            Row::Unreadable => self.word(b"unreadable"),
            Row::Opened(n) => self.numbered(b"opened ", n),
            Row::Pass => self.word(b"pass"),
            Row::PassNull => self.word(b"pass <>"),
            Row::PassNone => self.word(b"pass none"),
            Row::PassAddress { length } => self.address(first(answer, length)),
            Row::Ask { ticket, length } => self.ask(ticket, length),
            Row::Start { ticket } => self.numbered(b"start ", ticket),
            Row::Reply { length } => self.texted(b"reply ", first(reply, length)),
            Row::Done => self.word(b"done"),
            Row::Name { length } => self.texted(b"name ", first(reply, length)),
            Row::Nobody => self.word(b"nobody"),
            Row::Refused(k) => self.numbered(b"refused ", k),
        }
    }
}
