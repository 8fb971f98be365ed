// The connection that a call is for, found in an image that is tested first.
ghost use Rattle.std.specs.Prelude.{◌≡◌};
ghost use Rattle.profile.specs.declared.numbers.Refusal.TheVariants.{NoConnection, NoTicket};
ghost use Rattle.server.specs.Slots.{is_numbered, is_waiting, holding};
ghost use Rattle.umbrelnic.specs.Private.{placed};

use profile::numbers::Refusal;

// The index of the slot of the open connection with this number, or why the call is refused.
#[tactic(auto, unfolding(crate::specs::Private::placed))]
pub(crate) fn find_connection(image: &[u8], number: u64) -> Result<usize, Refusal>
    ensures { result ≡ placed NoConnection (holding (is_numbered number)) image.now }
{
    if !image::is_taken(image) {
        return Err(Refusal::NotTaken);
    }
    image::find_connection(image, number).ok_or(Refusal::NoConnection)
}

// The same of the open connection that waits on this ticket. Not one function with the search passed in: its contract would be longer than this body.
#[tactic(auto, unfolding(crate::specs::Private::placed))]
pub(crate) fn find_ticket(image: &[u8], ticket: u64) -> Result<usize, Refusal>
    ensures { result ≡ placed NoTicket (holding (is_waiting ticket)) image.now }
{
    if !image::is_taken(image) {
        return Err(Refusal::NotTaken);
    }
    image::find_ticket(image, ticket).ok_or(Refusal::NoTicket)
}
