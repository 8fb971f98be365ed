// The calls as a host in C calls them: each is the call of the crate umbrelnic, under the same name and with the same promise. include/umbrelnic.h
// declares them; a slice is a pointer and a length there.
#![tactic(auto)]

ghost use Rattle.std.specs.Prelude.{◌≡◌};
ghost use Rattle.image.specs.Sizes.{image_size};
ghost use Rattle.calls.specs.Call as Call;
ghost use Rattle.calls.specs.Buffers.{reply_after, answer_after, name_after};
ghost use Rattle.calls.specs.Numbers.{refusal};
ghost use Rattle.calls.specs.Step.{step};
ghost use Rattle.umbrelnic.specs.Given.{opened_of, line_answer_of, said_of, borne_of};

use umbrelnic::{Borne, LineAnswer, Opened, Said};

// How long an image is.
#[unsafe(no_mangle)]
pub extern "C" fn umbrelnic_image_octets() -> u64
    ensures { result ≡ image_size }
{
    umbrelnic::umbrelnic_image_octets()
}

// A new server in an image, with the numbers that its first connection and first ticket get. Refused: 20.
#[unsafe(no_mangle)]
pub extern "C" fn umbrelnic_make(image: &mut [u8], connection: u64, ticket: u64) -> u64
    ensures { let did = step image.old (Call.make connection ticket) in (result ≡ refusal did.result) × (image.new ≡ did.image) }
{
    umbrelnic::umbrelnic_make(image, connection, ticket)
}

// One more mechanism, with its two flags. Refused: 20, 5, 11, 8, 9, 10.
#[unsafe(no_mangle)]
pub extern "C" fn umbrelnic_add(
    image: &mut [u8],
    name: &[u8],
    client_first: u64,
    needs_protection: u64,
) -> u64
    ensures { let did = step image.old (Call.add name.now client_first needs_protection) in (result ≡ refusal did.result) × (image.new ≡ did.image) }
{
    umbrelnic::umbrelnic_add(image, name, client_first, needs_protection)
}

// A connection is taken up, by SMTP (0) or POP3 (1). Refused: 20, 5, 6, 7.
#[unsafe(no_mangle)]
pub extern "C" fn umbrelnic_open(image: &mut [u8], profile: u64, protected: u64) -> Opened
    ensures { let did = step image.old (Call.opens profile protected) in (result ≡ opened_of did.result) × (image.new ≡ did.image) }
{
    umbrelnic::umbrelnic_open(image, profile, protected)
}

// What a client sent is to be passed on, asked about or replied to. Refused: 1, 20, 2, 3, 7.
#[unsafe(no_mangle)]
pub extern "C" fn umbrelnic_line(
    image: &mut [u8],
    connection: u64,
    line: &[u8],
    reply: &mut [u8],
    answer: &mut [u8],
) -> LineAnswer
    ensures { let did = step image.old (Call.line connection line.now reply.old answer.old) in
        (result ≡ line_answer_of did.result) ×
        (image.new ≡ did.image) ×
        (reply.new ≡ reply_after did reply.old) ×
        (answer.new ≡ answer_after did answer.old) }
{
    umbrelnic::umbrelnic_line(image, connection, line, reply, answer)
}

// The password service has answered a query. Refused: 1, 20, 4, 5.
#[unsafe(no_mangle)]
pub extern "C" fn umbrelnic_verdict(
    image: &mut [u8],
    ticket: u64,
    verdict: u64,
    bytes: &[u8],
    reply: &mut [u8],
    answer: &mut [u8],
) -> Said
    ensures { let did = step image.old (Call.verdict ticket verdict bytes.now reply.old answer.old) in
        (result ≡ said_of did.result) ×
        (image.new ≡ did.image) ×
        (reply.new ≡ reply_after did reply.old) ×
        (answer.new ≡ answer_after did answer.old) }
{
    umbrelnic::umbrelnic_verdict(image, ticket, verdict, bytes, reply, answer)
}

// A connection's transaction is over. Refused: 20, 2.
#[unsafe(no_mangle)]
pub extern "C" fn umbrelnic_mail_ended(image: &mut [u8], connection: u64) -> u64
    ensures { let did = step image.old (Call.mail_ended connection) in (result ≡ refusal did.result) × (image.new ≡ did.image) }
{
    umbrelnic::umbrelnic_mail_ended(image, connection)
}

// Whether somebody is signed in on a connection, and under which name. Refused: 1, 20, 2.
#[unsafe(no_mangle)]
pub extern "C" fn umbrelnic_who(image: &[u8], connection: u64, name: &mut [u8]) -> Borne
    ensures { let did = step image.now (Call.who connection name.old) in
        (result ≡ borne_of did.result) ×
        (image.now ≡ did.image) ×
        (name.new ≡ name_after did name.old) }
{
    umbrelnic::umbrelnic_who(image, connection, name)
}

// A connection is given up, and with it the ticket that it waits on. Refused: 20, 2.
#[unsafe(no_mangle)]
pub extern "C" fn umbrelnic_close(image: &mut [u8], connection: u64) -> u64
    ensures { let did = step image.old (Call.close connection) in (result ≡ refusal did.result) × (image.new ≡ did.image) }
{
    umbrelnic::umbrelnic_close(image, connection)
}
