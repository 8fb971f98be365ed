// The C face of the readings of lines for bench/: an answer as its numbers, since that is what C gets; no part of the library that is shipped.
#![tactic(auto)]

ghost use Rattle.std.specs.Prelude.{◌≡◌};
ghost use Rattle.lineface.specs.Readings.{bare, mail_reading, auth_reading, command_reading, response_reading, command_at, response_at};

use lines::auth::Auth;
use lines::command::Command;
use lines::response::ResponseError;
use mail::Mail;
use profile::Profile;

// The kind of a reading, and the indices and the length that it has.
#[repr(C)]
#[derive(Clone, Copy)]
pub struct Reading {
    kind: u64,
    to: u64,
    from: u64,
    length: u64,
}

// A reading that is a kind alone.
fn bare(kind: u64) -> Reading
    ensures { result ≡ bare kind }
{
    Reading {
        kind: kind,
        to: 0,
        from: 0,
        length: 0,
    }
}

fn of_mail(m: Option<Mail>) -> Reading
    ensures { result ≡ mail_reading m }
{
    match m {
        None => bare(9),
        Some(Mail::Absent) => bare(10),
        Some(Mail::Null) => bare(11),
        Some(Mail::Address { from, to, length }) => Reading {
            kind: 12,
            to: to as u64,
            from: from as u64,
            length: length as u64,
        },
    }
}

fn of_auth(a: Option<Auth>) -> Reading
    ensures { result ≡ auth_reading a }
{
    match a {
        None => bare(13),
        Some(Auth::Alone { to }) => Reading {
            to: to as u64,
            ..bare(14)
        },
        Some(Auth::Initial { to, from, length }) => Reading {
            kind: 15,
            to: to as u64,
            from: from as u64,
            length: length as u64,
        },
    }
}

fn of_command(c: Command) -> Reading
    ensures { result ≡ command_reading c }
{
    match c {
        Command::NotUnderstood => bare(1),
        Command::Malformed => bare(2),
        Command::Ehlo => bare(3),
        Command::Helo => bare(4),
        Command::Rset => bare(5),
        Command::Quit => bare(6),
        Command::Mail(m) => of_mail(m),
        Command::Auth(a) => of_auth(a),
        Command::Barred => bare(7),
        Command::Other => bare(8),
    }
}

fn of_response(told: Result<usize, ResponseError>) -> Reading
    ensures { result ≡ response_reading told }
{
    match told {
        Err(ResponseError::TooLong) => bare(16),
        Err(ResponseError::Cancelled) => bare(17),
        Err(ResponseError::Malformed) => bare(18),
        Ok(n) => Reading {
            length: n as u64,
            ..bare(19)
        },
    }
}

#[unsafe(no_mangle)]
pub extern "C" fn bench_command(profile: u64, line: &[u8]) -> Reading
    ensures { result ≡ command_at profile line.now }
{
    match Profile::try_from(profile) {
        Ok(p) => of_command(lines::command::read_command(p, line)),
        Err(_) => bare(0),
    }
}

#[unsafe(no_mangle)]
pub extern "C" fn bench_response(profile: u64, line: &[u8]) -> Reading
    ensures { result ≡ response_at profile line.now }
{
    match Profile::try_from(profile) {
        Ok(p) => of_response(lines::response::read_response(p, line)),
        Err(_) => bare(0),
    }
}
