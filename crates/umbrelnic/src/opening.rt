// A connection opened in an image that is taken: said in `requires`, since a type that says it would have to hold again after each write.
ghost use Rattle.std.specs.Prelude.{◌≡◌, true};
ghost use Rattle.server.specs.Open.{enters};
ghost use Rattle.server.specs.Slots.{is_free};
ghost use Rattle.calls.specs.Step.{result_in, image_in};
ghost use Rattle.image.specs.InPlace.{is_taken, read_server, slot_found};
ghost use Rattle.umbrelnic.specs.Given.{opened_of};

use crate::Opened;
use profile::Profile;
use profile::numbers::Refusal;
use server::{Connection, Header};
use session::Session;

// In the slot at index i, the lowest that is free.
fn enter_in(image: &mut [u8], i: usize, profile: Profile, protected: bool) -> Opened
    requires { (is_taken image.old ≡ true) × (slot_found is_free image.old ≡ Some i) }
    ensures { (result ≡ opened_of (result_in (enters (read_server image.old) profile protected))) × (image.new ≡ image_in image.old (enters (read_server image.old) profile protected)) }
{
    let header = image::read_header(image);
    let number = header.connection;
    if number == Session::UNISSUED {
        return Opened::from(Refusal::Exhausted);
    }
    let session = Session::opened(profile, protected);
    image::write_connection(image, i, Connection { session, number });
    let next = Header {
        connection: number + 1,
        ticket: header.ticket,
        sealed: true,
    };
    image::write_header(image, next);
    Opened {
        refusal: 0,
        connection: number,
    }
}

pub(crate) fn enter(image: &mut [u8], profile: Profile, protected: bool) -> Opened
    requires { is_taken image.old ≡ true }
    ensures { (result ≡ opened_of (result_in (enters (read_server image.old) profile protected))) × (image.new ≡ image_in image.old (enters (read_server image.old) profile protected)) }
{
    let found = image::find_free(image);
    match found {
        None => Opened::from(Refusal::Full),
        Some(i) => enter_in(image, i, profile, protected),
    }
}
