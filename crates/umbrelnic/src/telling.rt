// Who is signed in.
ghost use Rattle.std.specs.Prelude.{◌≡◌, true, ◌≤◌, length};
ghost use Rattle.octets.specs.Answers.{written};
ghost use Rattle.session.specs.Limits.{longest_name};
ghost use Rattle.session.specs.Named.{bears};
ghost use Rattle.session.specs.WellFormed.{well_formed};
ghost use Rattle.server.specs.Outcome.{borne};
ghost use Rattle.calls.specs.Buffers.{name_in};
ghost use Rattle.image.specs.InPlace.{connection_read};
ghost use Rattle.umbrelnic.specs.Given.{borne_of};

use crate::Borne;
use session::Session;

// Of a session.
fn tell_of(session: Session, name: &mut [u8]) -> Borne
    requires { (longest_name ≤ length name.old) × (well_formed session ≡ true) }
    ensures { (result ≡ borne_of (borne (bears session))) × (name.new ≡ written name.old 0 (name_in (bears session))) }
{
    let mut told = Borne {
        refusal: 0,
        signed_in: 0,
        length: 0,
    };
    if session.is_signed_in() {
        told.signed_in = 1;
        let end = session.write_name(name);
        if let Some(length) = end {
            told.length = length as u64;
        }
    }
    told
}

// Of the connection in the slot at index i.
pub(crate) fn tell(image: &[u8], i: usize, name: &mut [u8]) -> Borne
    requires { (longest_name ≤ length name.old) × (well_formed (connection_read image.now i).session ≡ true) }
    ensures { (result ≡ borne_of (borne (bears (connection_read image.now i).session))) × (name.new ≡ written name.old 0 (name_in (bears (connection_read image.now i).session))) }
{
    let connection = image::read_connection(image, i);
    let session = connection.session;
    tell_of(session, name)
}
