// AUTH.
ghost use Rattle.std.specs.Prelude.{◌≡◌, Some};
ghost use Rattle.session.specs.Auth.{wrong_moment, available, alone, with_initial, timely, on_auth};

use crate::answer::Answer;
use crate::change::Change;
use crate::view::Offer;
use crate::{Phase, Session};
use lines::auth::Auth;
use profile::{Profile, Reply};

impl Session {
    // Whether it is not the moment for AUTH.
    fn is_wrong_moment(self) -> bool
        ensures { result ≡ wrong_moment self.profile self }
    {
        match self.profile {
            Profile::Smtp => self.is_signed_in() || !self.greeted || self.transaction,
            Profile::Pop3 => self.is_signed_in(),
        }
    }

    // Whether a mechanism is there for this connection.
    fn is_available(self, offer: Offer) -> bool
        ensures { result ≡ available self (Some offer) }
    {
        self.protected || !offer.needs_protection
    }

    // AUTH and an available mechanism, without an initial response.
    fn alone(self, offer: Offer, ticket: u64) -> Change
        ensures { result ≡ alone self (Some offer) ticket }
    {
        if offer.client_first {
            self.moves(Phase::Awaiting { sent: 1 }, Answer::EmptyChallenge)
        } else {
            self.asks(ticket, 0, true, 0)
        }
    }

    // AUTH and an available mechanism, with an initial response of so many octets.
    fn with_initial(self, offer: Offer, length: usize, ticket: u64) -> Change
        ensures { result ≡ with_initial self (Some offer) length ticket }
    {
        if offer.client_first {
            self.asks(ticket, 0, false, length)
        } else {
            self.says(Reply::InitialResponse)
        }
    }

    // AUTH at its moment.
    fn timely(self, auth: Option<Auth>, offer: Option<Offer>, ticket: u64) -> Change
        ensures { result ≡ timely self auth offer ticket }
    {
        let Some(auth) = auth else {
            return self.says(Reply::Syntax);
        };
        let Some(offer) = offer.filter(|o| self.is_available(*o)) else {
            return self.says(Reply::Unavailable);
        };
        match auth {
            Auth::Alone { .. } => self.alone(offer, ticket),
            Auth::Initial { length, .. } => self.with_initial(offer, length, ticket),
        }
    }

    #[tactic(auto, unfolding(crate::specs::Auth::on_auth))]
    pub(crate) fn on_auth(self, auth: Option<Auth>, offer: Option<Offer>, ticket: u64) -> Change
        ensures { result ≡ on_auth self auth offer ticket }
    {
        if self.is_wrong_moment() {
            self.says(Reply::WrongMoment)
        } else {
            self.timely(auth, offer, ticket)
        }
    }
}
