// The calls, for a host: functions over an image and octet buffers. The crate umbrelnic_c exports them to C; include/umbrelnic.h declares them there.
//
// Each promise says, for any octets and any numbers, what the call gives, the image that it leaves and what each lent buffer holds then.
#![tactic(auto)]

ghost use Rattle.std.specs.Prelude.{◌≡◌};
ghost use Rattle.image.specs.Sizes.{image_size};
ghost use Rattle.calls.specs.Call as Call;
ghost use Rattle.calls.specs.Buffers.{reply_after, answer_after, name_after};
ghost use Rattle.calls.specs.Numbers.{refusal};
ghost use Rattle.calls.specs.Step.{step};
ghost use Rattle.umbrelnic.specs.Given.{opened_of, line_answer_of, said_of, borne_of};

use profile::Profile;
use profile::numbers::Refusal;
use session::Session;

mod adding;
mod finding;
mod given;
mod opening;
mod stepping;
mod telling;

// How many octets the reply buffer and the answer buffer have at least. (An image has image::OCTETS, a name buffer Session::LONGEST_NAME.)
pub const REPLY_OCTETS: usize = 12288;

pub const ANSWER_OCTETS: usize = 9213;

// What the calls give, as numbers alone: C gets these structs, so a refusal is its number in a field and not the error of a Result.
//
// What open gives.
#[repr(C)]
#[derive(Clone, Copy, Debug, PartialEq, Eq)]
pub struct Opened {
    pub refusal: u64,
    pub connection: u64,
}

// What line gives.
#[repr(C)]
#[derive(Clone, Copy, Debug, PartialEq, Eq)]
pub struct LineAnswer {
    pub refusal: u64,
    pub kind: u64,
    pub ticket: u64,
    pub starts: u64,
    pub length: u64,
    pub identity: u64,
}

// What verdict gives.
#[repr(C)]
#[derive(Clone, Copy, Debug, PartialEq, Eq)]
pub struct Said {
    pub refusal: u64,
    pub length: u64,
}

// What who gives.
#[repr(C)]
#[derive(Clone, Copy, Debug, PartialEq, Eq)]
pub struct Borne {
    pub refusal: u64,
    pub signed_in: u64,
    pub length: u64,
}

// How long an image is.
pub fn umbrelnic_image_octets() -> u64
    ensures { result ≡ image_size }
{
    image::OCTETS as u64
}

// "Make a desk from a first connection number and a first ticket". Refused: 20.
pub fn umbrelnic_make(image: &mut [u8], connection: u64, ticket: u64) -> u64
    ensures { let did = step image.old (Call.make connection ticket) in (result ≡ refusal did.result) × (image.new ≡ did.image) }
{
    if image.len() != image::OCTETS {
        return u64::from(Refusal::NotTaken);
    }
    image::make(image, connection, ticket);
    0
}

// "Add a mechanism: name, whether the client speaks first, whether it needs a protected connection." Refused: 20, 5, 11, 8, 9, 10.
pub fn umbrelnic_add(image: &mut [u8], name: &[u8], client_first: u64, needs_protection: u64) -> u64
    ensures { let did = step image.old (Call.add name.now client_first needs_protection) in (result ≡ refusal did.result) × (image.new ≡ did.image) }
{
    if !image::is_taken(image) {
        return u64::from(Refusal::NotTaken);
    }
    if !((client_first <= 1) & (needs_protection <= 1)) {
        return u64::from(Refusal::NotListed);
    }
    adding::add(image, name, client_first == 1, needs_protection == 1)
}

// "Open: profile 0 SMTP or 1 POP3, protected or not; gives the connection's number." Refused: 20, 5, 6, 7.
pub fn umbrelnic_open(image: &mut [u8], profile: u64, protected: u64) -> Opened
    ensures { let did = step image.old (Call.opens profile protected) in (result ≡ opened_of did.result) × (image.new ≡ did.image) }
{
    if !image::is_taken(image) {
        return Opened::from(Refusal::NotTaken);
    }
    match Profile::try_from(profile) {
        Err(_) => Opened::from(Refusal::NotListed),
        Ok(p) => {
            if protected <= 1 {
                opening::enter(image, p, protected == 1)
            } else {
                Opened::from(Refusal::NotListed)
            }
        }
    }
}

// "Line, for a connection, gives one of: passed on; a question (..); a reply." Refused: 1, 20, 2, 3, 7.
pub fn umbrelnic_line(
    image: &mut [u8],
    connection: u64,
    line: &[u8],
    reply: &mut [u8],
    answer: &mut [u8],
) -> LineAnswer
    ensures { let did = step image.old (Call.line connection line.now reply.old answer.old) in (result ≡ line_answer_of did.result) × (image.new ≡ did.image) × (reply.new ≡ reply_after did reply.old) × (answer.new ≡ answer_after did answer.old) }
{
    if stepping::are_short(reply, answer) {
        return LineAnswer::from(Refusal::ShortBuffer);
    }
    match finding::find_connection(image, connection) {
        Err(refusal) => LineAnswer::from(refusal),
        Ok(i) => stepping::hear(image, i, connection, line, reply, answer),
    }
}

// "Verdict, for a ticket, gives a reply." Refused: 1, 20, 4, 5.
pub fn umbrelnic_verdict(
    image: &mut [u8],
    ticket: u64,
    verdict: u64,
    bytes: &[u8],
    reply: &mut [u8],
    answer: &mut [u8],
) -> Said
    ensures { let did = step image.old (Call.verdict ticket verdict bytes.now reply.old answer.old) in (result ≡ said_of did.result) × (image.new ≡ did.image) × (reply.new ≡ reply_after did reply.old) × (answer.new ≡ answer_after did answer.old) }
{
    if stepping::are_short(reply, answer) {
        return Said::from(Refusal::ShortBuffer);
    }
    match finding::find_ticket(image, ticket) {
        Err(refusal) => Said::from(refusal),
        Ok(i) => stepping::judge(image, i, ticket, verdict, bytes, reply),
    }
}

// "Mail ended, for a connection: clears the transaction". Refused: 20, 2.
pub fn umbrelnic_mail_ended(image: &mut [u8], connection: u64) -> u64
    ensures { let did = step image.old (Call.mail_ended connection) in (result ≡ refusal did.result) × (image.new ≡ did.image) }
{
    match finding::find_connection(image, connection) {
        Err(refusal) => u64::from(refusal),
        Ok(i) => {
            stepping::end_mail(image, i);
            0
        }
    }
}

// "Who: signed in or not, and the name." Refused: 1, 20, 2.
pub fn umbrelnic_who(image: &[u8], connection: u64, name: &mut [u8]) -> Borne
    ensures { let did = step image.now (Call.who connection name.old) in (result ≡ borne_of did.result) × (image.now ≡ did.image) × (name.new ≡ name_after did name.old) }
{
    if name.len() < Session::LONGEST_NAME {
        return Borne::from(Refusal::ShortBuffer);
    }
    match finding::find_connection(image, connection) {
        Err(refusal) => Borne::from(refusal),
        Ok(i) => telling::tell(image, i, name),
    }
}

// "Close: clears the place and voids its ticket." Refused: 20, 2.
pub fn umbrelnic_close(image: &mut [u8], connection: u64) -> u64
    ensures { let did = step image.old (Call.close connection) in (result ≡ refusal did.result) × (image.new ≡ did.image) }
{
    match finding::find_connection(image, connection) {
        Err(refusal) => u64::from(refusal),
        Ok(i) => {
            image::free_slot(image, i);
            0
        }
    }
}
