// A response in an exchange: too long, "*", or base64.
ghost use Rattle.std.specs.Prelude.{◌≡◌, Some};
ghost use Rattle.lines.specs.Response.{printed, response};

use base64text::Base64;
use octets::reader::measure_at;
use profile::Profile;
use std::error::Error;
use std::fmt;

// Why a response is not base64 of a length that is read.
#[derive(Clone, Copy, Debug, PartialEq, Eq)]
pub enum ResponseError {
    TooLong,
    Cancelled,
    Malformed,
}

impl fmt::Display for ResponseError {
    ghost output = { λ e. Some (printed e) };

    fn fmt<W: fmt::Write>(&self, f: &mut fmt::Formatter<W>) -> fmt::Result {
        f.write_str(match self {
            ResponseError::TooLong => "too long",
            ResponseError::Cancelled => "cancelled",
            ResponseError::Malformed => "malformed",
        })
    }
}

impl Error for ResponseError {}

// A response in an exchange: of how many octets it is the base64.
#[tactic(auto, using(octets::proofs::Chains::same_is), unfolding(crate::specs::Response::response))]
pub fn read_response(p: Profile, line: &[u8]) -> Result<usize, ResponseError>
    ensures { result ≡ response p line.now }
{
    if p.response_limit() < line.len() {
        return Err(ResponseError::TooLong);
    }
    if line == b"*".as_slice() {
        return Err(ResponseError::Cancelled);
    }
    measure_at::<Base64>(line, 0).ok_or(ResponseError::Malformed)
}
