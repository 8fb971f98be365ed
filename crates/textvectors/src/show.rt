// Octets and answers as rows print them.
use octets::DecodeError;
use std::fmt;

// Octets in quotes, what is not printable in ASCII as "\x" and two digits.
#[derive(Clone, Copy)]
pub struct Quoted<'a>(pub &'a [u8]);

impl fmt::Display for Quoted<'_> {
    fn fmt<W: fmt::Write>(&self, f: &mut fmt::Formatter<W>) -> fmt::Result {
        f.write_str("\"")?;
        for x in self.0 {
            match *x {
                b' '..=b'~' => f.write_char(char::from(*x))?,
                other => write!(f, "\\x{other:02x}")?,
            }
        }
        f.write_str("\"")
    }
}

// How many octets a text stands for.
#[derive(Clone, Copy)]
pub struct Measured(pub Option<usize>);

impl fmt::Display for Measured {
    fn fmt<W: fmt::Write>(&self, f: &mut fmt::Formatter<W>) -> fmt::Result {
        match self.0 {
            Some(n) => write!(f, "length {n}"),
            None => f.write_str("malformed"),
        }
    }
}

// How many octets were decoded.
#[derive(Clone, Copy)]
pub struct Decoded(pub Result<usize, DecodeError>);

impl fmt::Display for Decoded {
    fn fmt<W: fmt::Write>(&self, f: &mut fmt::Formatter<W>) -> fmt::Result {
        match self.0 {
            Ok(n) => write!(f, "length {n}"),
            Err(e) => write!(f, "{e}"),
        }
    }
}

// The index after a text that was encoded.
#[derive(Clone, Copy)]
pub struct Encoded(pub Option<usize>);

impl fmt::Display for Encoded {
    fn fmt<W: fmt::Write>(&self, f: &mut fmt::Formatter<W>) -> fmt::Result {
        match self.0 {
            Some(n) => write!(f, "end {n}"),
            None => f.write_str("short"),
        }
    }
}
