// What a step gives: its numbers, and what the client hears.
ghost use Rattle.std.specs.Prelude.{◌≡◌, length};
ghost use Rattle.octets.specs.Answers.{written, encoded};
ghost use Rattle.session.specs.Answer.{numbers, challenge, heard};

use profile::numbers::{Identity, Kind, Refusal};
use profile::{Profile, Reply};

// What a step gives. A refusal is one of its cases and no Err: a refused step hands the session back as any other does, and `?` would lose it.
// Refused: nothing changed. Forward (document 01: passed on): the identity to relay, with an address's length.
// Query (document 01: a question): the ticket, whether it only starts an exchange, the response's length.
// Reply: the text of an event. EmptyChallenge: a challenge of no octets. Challenge: one of the verdict's data.
#[derive(Clone, Copy, Debug, PartialEq, Eq)]
pub enum Answer {
    Refused(Refusal),
    Forward {
        identity: Identity,
        length: usize,
    },
    Query {
        ticket: u64,
        starts: bool,
        length: usize,
    },
    Reply(Reply),
    EmptyChallenge,
    Challenge,
}

// An answer in numbers, each 0 where the answer has none, as the calls from C pass them (document 01 sets out each). `length` counts the octets of a
// query's response, an address or a reply.
#[derive(Clone, Copy, Debug, Default, PartialEq, Eq)]
pub struct Numbers {
    pub refusal: u64,
    pub kind: u64,
    pub ticket: u64,
    pub starts: u64,
    pub length: u64,
    pub identity: u64,
}

// Writes a challenge to the start of out. Its length is known first, so that out is left as it is where it does not fit.
fn write_challenge(profile: Profile, bytes: &[u8], out: &mut [u8]) -> Option<usize>
    ensures { (result ≡ encoded (challenge profile bytes.now) (length out.old) 0) × (out.new ≡ written out.old 0 (challenge profile bytes.now)) }
{
    let from = profile.challenge_prefix().len();
    let to = from + bytes.len().div_ceil(3) * 4;
    if out.len() < to + 2 {
        return None;
    }
    profile.begin_challenge(out);
    base64text::encode(bytes, out, from);
    profile::end_line(out, to)
}

impl Answer {
    // Writes what the client hears to the start of out: nothing, the text of an event, or a challenge, whose octets are the verdict's data.
    // Where it does not fit, out is left as it is.
    #[tactic(auto, using(octets::proofs::Answers::nothing_written), unfolding(crate::specs::Answer::heard))]
    pub fn say(self, profile: Profile, bytes: &[u8], out: &mut [u8]) -> Option<usize>
        ensures { (result ≡ encoded (heard profile bytes.now self) (length out.old) 0) × (out.new ≡ written out.old 0 (heard profile bytes.now self)) }
    {
        match self {
            Answer::Refused(_) | Answer::Forward { .. } | Answer::Query { .. } => Some(0),
            Answer::Reply(event) => profile.say(event, out),
            Answer::EmptyChallenge => write_challenge(profile, b"", out),
            Answer::Challenge => write_challenge(profile, bytes, out),
        }
    }

    // The numbers of an answer; of a reply, with the length of what the client hears.
    pub fn numbers(self, heard: usize) -> Numbers
        ensures { result ≡ numbers self heard }
    {
        match self {
            Answer::Refused(refusal) => Numbers {
                refusal: u64::from(refusal),
                ..Numbers::default()
            },
            Answer::Forward { identity, length } => Numbers {
                kind: u64::from(Kind::Forward),
                length: length as u64,
                identity: u64::from(identity),
                ..Numbers::default()
            },
            Answer::Query {
                ticket,
                starts,
                length,
            } => Numbers {
                kind: u64::from(Kind::Query),
                ticket,
                starts: u64::from(starts),
                length: length as u64,
                ..Numbers::default()
            },
            Answer::Reply(_) | Answer::EmptyChallenge | Answer::Challenge => Numbers {
                kind: u64::from(Kind::Answered),
                length: heard as u64,
                ..Numbers::default()
            },
        }
    }
}
