// What the line of a transcript says.
ghost use Rattle.std.specs.Prelude.{◌≡◌, ◌-◌};
ghost use Rattle.deskrun.specs.Row.{open_row, line_row, forward_row, query_row, verdict_row, who_row, done_row};

use profile::numbers::{Identity, Kind};
use umbrelnic::{Borne, LineAnswer, Opened, Said};

// Each is a line of docs/DESKRUN.md, so a script line that is no call and a refusal are rows among others, and no error.
// A length is that of the text which stands in a buffer: of an address in the answer buffer, of a reply, which is printed without its CRLF, and
// of a name in the reply buffer.
#[derive(Clone, Copy, Debug, PartialEq, Eq)]
pub(crate) enum Row {
    Unreadable,
    Opened(u64),
    Pass,
    PassNull,
    PassNone,
    PassAddress { length: u64 },
    Ask { ticket: u64, length: u64 },
    Start { ticket: u64 },
    Reply { length: u64 },
    Done,
    Name { length: u64 },
    Nobody,
    Refused(u64),
}

pub(crate) fn of_open(opened: Opened) -> Row
    ensures { result ≡ open_row opened }
{
    if opened.refusal != 0 {
        return Row::Refused(opened.refusal);
    }
    Row::Opened(opened.connection)
}

pub(crate) fn of_line(a: LineAnswer) -> Row
    ensures { result ≡ line_row a }
{
    if a.refusal != 0 {
        return Row::Refused(a.refusal);
    }
    if a.kind == u64::from(Kind::Forward) {
        return of_forward(a);
    }
    if a.kind == u64::from(Kind::Query) {
        return of_query(a);
    }
    Row::Reply {
        length: without_crlf(a.length),
    }
}

// A line that is passed on, with the identity of a MAIL.
fn of_forward(a: LineAnswer) -> Row
    ensures { result ≡ forward_row a }
{
    if a.identity == u64::from(Identity::Null) {
        return Row::PassNull;
    }
    if a.identity == u64::from(Identity::Absent) {
        return Row::PassNone;
    }
    if a.identity == u64::from(Identity::Address) {
        return Row::PassAddress { length: a.length };
    }
    Row::Pass
}

fn of_query(a: LineAnswer) -> Row
    ensures { result ≡ query_row a }
{
    if a.starts == 1 {
        return Row::Start { ticket: a.ticket };
    }
    Row::Ask {
        ticket: a.ticket,
        length: a.length,
    }
}

pub(crate) fn of_verdict(said: Said) -> Row
    ensures { result ≡ verdict_row said }
{
    if said.refusal != 0 {
        return Row::Refused(said.refusal);
    }
    Row::Reply {
        length: without_crlf(said.length),
    }
}

pub(crate) fn of_who(borne: Borne) -> Row
    ensures { result ≡ who_row borne }
{
    if borne.refusal != 0 {
        return Row::Refused(borne.refusal);
    }
    if borne.signed_in == 1 {
        return Row::Name {
            length: borne.length,
        };
    }
    Row::Nobody
}

// Mail ended, and close.
pub(crate) fn of_done(refusal: u64) -> Row
    ensures { result ≡ done_row refusal }
{
    if refusal != 0 {
        return Row::Refused(refusal);
    }
    Row::Done
}

fn without_crlf(length: u64) -> u64
    ensures { result ≡ length - 2 }
{
    length.saturating_sub(2)
}
