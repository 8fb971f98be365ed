// What a script line says, run on a desk.
use crate::row::{Row, of_done, of_line, of_open, of_verdict, of_who};
use profile::numbers::Verdict;
use script::command::Command;
use umbrelnic::{
    ANSWER_OCTETS, REPLY_OCTETS, umbrelnic_add, umbrelnic_close, umbrelnic_line,
    umbrelnic_mail_ended, umbrelnic_make, umbrelnic_open, umbrelnic_verdict, umbrelnic_who,
};

// No script line that is kept has more octets in hexadecimal.
const HEX: usize = 16384;

// A desk, and the buffers that its calls are lent: a name goes to the reply buffer.
#[derive(Drop)]
pub(crate) struct Desk {
    pub image: [u8; image::OCTETS],
    pub reply: [u8; REPLY_OCTETS],
    pub answer: [u8; ANSWER_OCTETS],
}

// A script line from an index on.
fn rest(text: &[u8], from: usize) -> &[u8] {
    octets::part(text, from, text.len())
}

impl Desk {
    // Document 01's desk: "PLAIN client-first and protected, CRAM-MD5 server-first; numbers from 1".
    pub(crate) fn new() -> Desk {
        let mut image = [0u8; image::OCTETS];
        umbrelnic_make(&mut image, 1, 1);
        umbrelnic_add(&mut image, b"PLAIN", 1, 1);
        umbrelnic_add(&mut image, b"CRAM-MD5", 0, 0);
        Desk {
            image,
            reply: [0; REPLY_OCTETS],
            answer: [0; ANSWER_OCTETS],
        }
    }

    // Makes the call of a script line, and gives what is to be printed.
    pub(crate) fn run(&mut self, text: &[u8], command: Command) -> Row {
        match command {
            Command::Open { profile, protected } => of_open(umbrelnic_open(
                &mut self.image,
                u64::from(profile),
                u64::from(protected),
            )),
            Command::Line { connection, from } => self.hear(connection, rest(text, from)),
            Command::Hexline { connection, from } => self.hear_hex(connection, rest(text, from)),
            Command::Verdict {
                ticket,
                verdict,
                from,
            } => self.judge(ticket, verdict, rest(text, from)),
            Command::Ended { connection } => {
                of_done(umbrelnic_mail_ended(&mut self.image, connection))
            }
            Command::Who { connection } => {
                of_who(umbrelnic_who(&self.image, connection, &mut self.reply))
            }
            Command::Close { connection } => of_done(umbrelnic_close(&mut self.image, connection)),
        }
    }

    // A line of a client's.
    fn hear(&mut self, connection: u64, text: &[u8]) -> Row {
        of_line(umbrelnic_line(
            &mut self.image,
            connection,
            text,
            &mut self.reply,
            &mut self.answer,
        ))
    }

    // The same of a text in hexadecimal. It was read as digits alone, so it is decoded; a last digit whose pair is not kept stands for no octet.
    fn hear_hex(&mut self, connection: u64, digits: &[u8]) -> Row {
        let mut bytes = [0u8; HEX];
        match script::hex::decode(digits, &mut bytes) {
            Ok(n) => self.hear(connection, octets::part(&bytes, 0, n)),
            Err(_) => Row::Unreadable,
        }
    }

    fn judge(&mut self, ticket: u64, verdict: Verdict, bytes: &[u8]) -> Row {
        of_verdict(umbrelnic_verdict(
            &mut self.image,
            ticket,
            u64::from(verdict),
            bytes,
            &mut self.reply,
            &mut self.answer,
        ))
    }
}
