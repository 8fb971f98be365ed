// A response in an exchange.
ghost use Rattle.std.specs.Prelude.{◌≡◌};
ghost use Rattle.session.specs.Response.{on_response};

use crate::Session;
use crate::change::Change;
use lines::response::ResponseError;
use profile::Reply;

impl Session {
    // A response in an exchange that has sent so many challenges.
    #[tactic(auto, unfolding(crate::specs::Response::on_response))]
    pub(crate) fn on_response(
        self,
        sent: u8,
        response: Result<usize, ResponseError>,
        ticket: u64,
    ) -> Change
        ensures { result ≡ on_response self sent response ticket }
    {
        match response {
            Err(ResponseError::TooLong) => self.fails(Reply::ResponseTooLong),
            Err(ResponseError::Cancelled) => self.fails(Reply::Cancelled),
            Err(ResponseError::Malformed) => self.fails(Reply::Syntax),
            Ok(n) => self.asks(ticket, sent, false, n),
        }
    }
}
