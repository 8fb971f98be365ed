// What a line says, as rows print it.
use lines::auth::Auth;
use lines::command::Command;
use mail::Mail;
use std::fmt;

// What was read.
#[derive(Clone, Copy)]
pub(crate) struct Says<T>(pub T);

impl fmt::Display for Says<Option<Auth>> {
    fn fmt<W: fmt::Write>(&self, f: &mut fmt::Formatter<W>) -> fmt::Result {
        match self.0 {
            None => f.write_str("AUTH malformed"),
            Some(Auth::Alone { to }) => write!(f, "AUTH up to {to}"),
            Some(Auth::Initial { to, from, length }) => {
                write!(f, "AUTH up to {to}, from {from} length {length}")
            }
        }
    }
}

impl fmt::Display for Says<Option<Mail>> {
    fn fmt<W: fmt::Write>(&self, f: &mut fmt::Formatter<W>) -> fmt::Result {
        match self.0 {
            None => f.write_str("MAIL malformed"),
            Some(Mail::Absent) => f.write_str("MAIL, no AUTH"),
            Some(Mail::Null) => f.write_str("MAIL, AUTH <>"),
            Some(Mail::Address { from, to, length }) => {
                write!(f, "MAIL, AUTH from {from} to {to} length {length}")
            }
        }
    }
}

impl fmt::Display for Says<Command> {
    fn fmt<W: fmt::Write>(&self, f: &mut fmt::Formatter<W>) -> fmt::Result {
        match self.0 {
            Command::NotUnderstood => f.write_str("not understood"),
            Command::Malformed => f.write_str("malformed"),
            Command::Ehlo => f.write_str("EHLO"),
            Command::Helo => f.write_str("HELO"),
            Command::Rset => f.write_str("RSET"),
            Command::Quit => f.write_str("QUIT"),
            Command::Mail(mail) => write!(f, "{}", Says(mail)),
            Command::Auth(auth) => write!(f, "{}", Says(auth)),
            Command::Barred => f.write_str("not permitted"),
            Command::Other => f.write_str("other"),
        }
    }
}

// The length of a response.
#[derive(Clone, Copy)]
pub(crate) struct Length(pub Result<usize, lines::response::ResponseError>);

impl fmt::Display for Length {
    fn fmt<W: fmt::Write>(&self, f: &mut fmt::Formatter<W>) -> fmt::Result {
        match self.0 {
            Ok(n) => write!(f, "length {n}"),
            Err(e) => write!(f, "{e}"),
        }
    }
}
