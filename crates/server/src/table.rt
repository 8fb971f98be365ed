// The mechanisms of a server.
ghost use Rattle.std.specs.Prelude.{◌≡◌, false, replicate};
ghost use Rattle.octets.specs.Lists.{same};
ghost use Rattle.lines.specs.Mechanism.{longest_mechanism, padded};
ghost use Rattle.server.specs.Limits.{most_mechanisms};
ghost use Rattle.server.specs.Mechanisms.{listed, offered};

use crate::{MOST_MECHANISMS, Mechanism, Mechanisms};
use lines::mechanism::{LONGEST_MECHANISM, name_of, same_name};
use session::view::Offer;

impl Mechanism {
    // A mechanism; a name of more than twenty octets is cut.
    pub fn new(name: &[u8], client_first: bool, needs_protection: bool) -> Mechanism
        ensures { result ≡ record { name = padded name.now; client_first = client_first; needs_protection = needs_protection } }
    {
        Mechanism {
            name: name_of(name),
            client_first,
            needs_protection,
        }
    }

    pub fn is_named(self, name: [u8; LONGEST_MECHANISM]) -> bool
        ensures { result ≡ same self.name name }
    {
        same_name(self.name, name)
    }
}

impl Mechanisms {
    // A table to which none was added.
    pub fn none() -> Mechanisms
        ensures { result ≡ record { records = replicate most_mechanisms (record { name = replicate longest_mechanism 0; client_first = false; needs_protection = false }); count = 0 } }
    {
        let unset = Mechanism {
            name: [0; LONGEST_MECHANISM],
            client_first: false,
            needs_protection: false,
        };
        Mechanisms {
            records: [unset; MOST_MECHANISMS],
            count: 0,
        }
    }

    // The mechanisms of the table. It has eight records, so a count above lists them all.
    fn listed(&self) -> &[Mechanism]
        ensures { result.now ≡ listed self.now }
    {
        &self.records[..self.count.min(MOST_MECHANISMS)]
    }

    // What there is of the mechanism with this name.
    pub fn offer(self, name: [u8; LONGEST_MECHANISM]) -> Option<Offer>
        ensures { result ≡ offered (listed self) name }
    {
        self.listed()
            .iter()
            .find(|m| m.is_named(name))
            .map(|m| Offer {
                client_first: m.client_first,
                needs_protection: m.needs_protection,
            })
    }
}
