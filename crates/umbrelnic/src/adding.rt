// A mechanism added to an image that is taken: said in `requires`, since a type that says it would have to hold again after each write.
ghost use Rattle.std.specs.Prelude.{◌≡◌, true};
ghost use Rattle.server.specs.Add.{adds_to};
ghost use Rattle.calls.specs.Numbers.{refusal};
ghost use Rattle.calls.specs.Step.{result_in, image_in};
ghost use Rattle.image.specs.InPlace.{is_taken, read_server};

use lines::mechanism::is_mechanism;
use profile::numbers::Refusal;
use server::{MOST_MECHANISMS, Mechanism};

pub(crate) fn add(image: &mut [u8], name: &[u8], client_first: bool, needs_protection: bool) -> u64
    requires { is_taken image.old ≡ true }
    ensures { (result ≡ refusal (result_in (adds_to (read_server image.old) name.now client_first needs_protection))) × (image.new ≡ image_in image.old (adds_to (read_server image.old) name.now client_first needs_protection)) }
{
    let header = image::read_header(image);
    if header.sealed {
        return u64::from(Refusal::Sealed);
    }
    if !is_mechanism(name) {
        return u64::from(Refusal::BadName);
    }
    let table = image::read_mechanisms(image);
    let mechanism = Mechanism::new(name, client_first, needs_protection);
    let kept = mechanism.name;
    if table.offer(kept).is_some() {
        return u64::from(Refusal::NamePresent);
    }
    let count = table.count;
    if MOST_MECHANISMS <= count {
        return u64::from(Refusal::TableFull);
    }
    image::write_mechanism(image, count, mechanism);
    0
}
