// A connection stepped where it stands in an image that is taken: by a line, by a verdict, by the end of a transaction.
ghost use Rattle.std.specs.Prelude.{◌≡◌, true, false, not, ◌&&◌, ◌≤◌, eqb, leb, length};
ghost use Rattle.std.proofs.Math.Option.{some};
ghost use Rattle.octets.specs.Answers.{written};
ghost use Rattle.base64text.specs.Base64 as Base64;
ghost use Rattle.lines.specs.Mechanism.{padded};
ghost use Rattle.profile.specs.Numbers.{verdict_of};
ghost use Rattle.session.specs.Answer.{heard, numbers};
ghost use Rattle.session.specs.Limits.{reply_buffer, answer_buffer, unissued};
ghost use Rattle.session.specs.Octets.{mechanism_text, response_text};
ghost use Rattle.session.specs.Standing.{is_refused};
ghost use Rattle.server.specs.Line.{is_query, relays_address};
ghost use Rattle.server.specs.Mechanisms.{listed, offered};
ghost use Rattle.server.specs.Slots.{is_numbered, is_waiting, holding};
ghost use Rattle.image.specs.InPlace.{is_taken, mechanisms_read, connection_read, slot_found, slot_written};
ghost use Rattle.calls.specs.Call as Call;
ghost use Rattle.calls.specs.Call.{is_short};
ghost use Rattle.umbrelnic.specs.Private.{ended, kept_in, issued_in, handed_in, LineDone, Judged};

use crate::{ANSWER_OCTETS, LineAnswer, REPLY_OCTETS, Said};
use profile::Profile;
use profile::numbers::{Identity, Refusal, Verdict};
use server::{Connection, Header};
use session::Stepped;
use session::answer::{Answer, Numbers};
use session::view::{Offer, View};

// Whether a buffer is shorter than line and verdict ask for.
pub(crate) fn are_short(reply: &[u8], answer: &[u8]) -> bool
    ensures { result ≡ not (leb reply_buffer (length reply.now) && leb answer_buffer (length answer.now)) }
{
    !((REPLY_OCTETS <= reply.len()) & (ANSWER_OCTETS <= answer.len()))
}

// ---- the image, which each of these requires to be taken: a type that says so would have to hold again before each of the writes of one step

// The transaction of the connection in the slot at index i is over.
pub(crate) fn end_mail(image: &mut [u8], i: usize)
    ensures { image.new ≡ slot_written image.old i (some (ended (connection_read image.old i))) }
{
    let connection = image::read_connection(image, i);
    let session = connection.session;
    let ended = Connection {
        session: session.mail_ended(),
        number: connection.number,
    };
    image::write_connection(image, i, ended);
}

fn is_refused(answer: Answer) -> bool
    ensures { result ≡ is_refused answer }
{
    matches!(answer, Answer::Refused(_))
}

fn is_query(answer: Answer) -> bool
    ensures { result ≡ is_query answer }
{
    matches!(answer, Answer::Query { .. })
}

fn relays_address(answer: Answer) -> bool
    ensures { result ≡ relays_address answer }
{
    matches!(
        answer,
        Answer::Forward {
            identity: Identity::Address,
            ..
        }
    )
}

// Keeps what a step made of a connection, in the slot at index i. A step that was refused leaves the image as it is.
fn keep(image: &mut [u8], i: usize, number: u64, stepped: Stepped)
    ensures { image.new ≡ kept_in image.old i number stepped }
{
    let answer = stepped.answer;
    if is_refused(answer) {
        return;
    }
    let session = stepped.session;
    image::write_connection(image, i, Connection { session, number });
}

// A query takes the next ticket.
fn issue(image: &mut [u8], header: Header, answer: Answer)
    requires { is_query answer ≡ true → eqb header.ticket unissued ≡ false }
    ensures { image.new ≡ issued_in image.old header answer }
{
    if is_query(answer) {
        let next = Header {
            connection: header.connection,
            ticket: header.ticket + 1,
            sealed: header.sealed,
        };
        image::write_header(image, next);
    }
}

// ---- the buffers

// Decodes what a line hands over to the start of a buffer: a query's response, or an address to relay. That a query's response is base64 was seen when
// the line was read, so it is not looked at again.
fn hand_over(answer: Answer, view: View, line: &[u8], out: &mut [u8])
    requires { is_query answer ≡ true → Base64.valid (response_text view line.now) ≡ true }
    ensures { out.new ≡ handed_in answer view line.now out.old }
{
    if is_query(answer) {
        view.decode_response_unchecked(line, out);
        return;
    }
    if relays_address(answer) {
        let _ = view.decode_address(line, out);
    }
}

// Writes what the client hears; the numbers of the answer.
fn respond(answer: Answer, profile: Profile, bytes: &[u8], reply: &mut [u8]) -> Numbers
    requires { length (heard profile bytes.now answer) ≤ length reply.old }
    ensures { (result ≡ numbers answer (length (heard profile bytes.now answer))) × (reply.new ≡ written reply.old 0 (heard profile bytes.now answer)) }
{
    let said = answer.say(profile, bytes, reply);
    match said {
        Some(end) => answer.numbers(end),
        None => answer.numbers(0),
    }
}

// ---- a line and a verdict

// What the server has of the mechanism that a line names.
fn offer_for(image: &[u8], view: View, line: &[u8]) -> Option<Offer>
    ensures { result ≡ offered (listed (mechanisms_read image.now)) (padded (mechanism_text view line.now)) }
{
    let table = image::read_mechanisms(image);
    table.offer(view.mechanism(line))
}

// A line for the connection with this number, in the slot at index i.
pub(crate) fn hear(
    image: &mut [u8],
    i: usize,
    number: u64,
    line: &[u8],
    reply: &mut [u8],
    answer: &mut [u8],
) -> LineAnswer
    requires { (is_taken image.old ≡ true) × (slot_found (holding (is_numbered number)) image.old ≡ Some i) × (is_short (Call.line number line.now reply.old answer.old) ≡ false) }
    ensures { LineDone image.old number line.now reply.old answer.old result image.new reply.new answer.new }
{
    let connection = image::read_connection(image, i);
    let session = connection.session;
    let profile = session.profile;
    let header = image::read_header(image);
    let view = session.read(line);
    let offer = offer_for(image, view, line);
    let stepped = session.line(view, offer, header.ticket);
    let given = stepped.answer;
    keep(image, i, number, stepped);
    issue(image, header, given);
    hand_over(given, view, line, answer);
    LineAnswer::from(respond(given, profile, b"", reply))
}

// A verdict on this ticket, on which the connection in the slot at index i waits.
fn rule(
    image: &mut [u8],
    i: usize,
    ticket: u64,
    verdict: Verdict,
    bytes: &[u8],
    reply: &mut [u8],
) -> Said
    requires { (is_taken image.old ≡ true) × (slot_found (holding (is_waiting ticket)) image.old ≡ Some i) × (reply_buffer ≤ length reply.old) }
    ensures { Judged image.old ticket (Ok verdict) bytes.now reply.old result image.new reply.new }
{
    let connection = image::read_connection(image, i);
    let session = connection.session;
    let profile = session.profile;
    let stepped = session.verdict(ticket, verdict, bytes);
    let given = stepped.answer;
    keep(image, i, connection.number, stepped);
    Said::from(respond(given, profile, bytes, reply))
}

// A verdict by its number.
pub(crate) fn judge(
    image: &mut [u8],
    i: usize,
    ticket: u64,
    verdict: u64,
    bytes: &[u8],
    reply: &mut [u8],
) -> Said
    requires { (is_taken image.old ≡ true) × (slot_found (holding (is_waiting ticket)) image.old ≡ Some i) × (reply_buffer ≤ length reply.old) }
    ensures { Judged image.old ticket (verdict_of verdict) bytes.now reply.old result image.new reply.new }
{
    let listed = Verdict::try_from(verdict);
    match listed {
        Err(_) => Said::from(Refusal::NotListed),
        Ok(v) => rule(image, i, ticket, v, bytes, reply),
    }
}
