// A MAIL line from an index of a line on to its end: over the line and a number, through a reader, and above it with plain parameters again.
// No form of text: its reading has indices of the whole line, so it is no function of what stands from the index on.
ghost use Rattle.std.specs.Prelude.{◌≡◌};
ghost use Rattle.mail.specs.Mail.{mail_at};
ghost use Rattle.mail.specs.Reader.{reading, after_reading};

use crate::Mail;
use octets::reader::{Reader, Reading, reached};

// Over a line and a number: the answer, and the index reached.
pub fn read_from(line: &[u8], at: usize) -> Reading<Option<Mail>>
    ensures { result ≡ reading (mail_at line.now at) line.now at }
{
    let answer = crate::mail_from(line, at);
    Reading {
        answer,
        at: reached(line, at, answer.is_some()),
    }
}

// Reads the rest of the line as a MAIL line; the indices found are the whole line's. The reader comes back at the line's end; where the
// rest is not of the form, as it was.
pub fn read_rest<'s, 'a>(r: &'s mut Reader<'a>) -> Option<Mail>
    ensures { (result ≡ mail_at r.old.line.now r.old.at) × (r.new ≡ after_reading result r.old) }
{
    let read = read_from(r.line, r.at);
    r.at = read.at;
    read.answer
}

// The same of a line and an index, for callers that keep no reader.
pub fn read_at(line: &[u8], at: usize) -> Option<Mail>
    ensures { result ≡ mail_at line.now at }
{
    let mut r = Reader { line, at };
    read_rest(&mut r)
}
