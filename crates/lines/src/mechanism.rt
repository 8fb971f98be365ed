// Mechanism names: their form, and the twenty octets in which one is kept and compared.
ghost use Rattle.std.specs.Prelude.{◌≡◌, ℕ, Bool};
ghost use Rattle.octets.specs.Ascii.{capitals};
ghost use Rattle.octets.specs.Lists.{same, one_to};
ghost use Rattle.lines.specs.Mechanism.{mech_char, longest_mechanism, mechanism, spelling, padded};

// A name has at most so many octets, and is kept in as many.
pub const LONGEST_MECHANISM: usize = 20;

// Whether an octet may stand in a mechanism's name.
pub fn is_mech_char(x: u8) -> bool
    ensures { result ≡ mech_char x }
{
    x.is_ascii_uppercase() || x.is_ascii_digit() || x == b'-' || x == b'_'
}

// Whether a text has one to twenty octets, each of which passes a test.
fn is_formed<F: Fn(u8) -> bool>(text: &[u8], test: F) -> bool
    requires { F.IsAlwaysCallable test }
    ensures { (f : ℕ → Bool) → ((x : ℕ) (b : Bool) → F.post test x b → b ≡ f x) → result ≡ one_to longest_mechanism f text.now }
{
    (1..=LONGEST_MECHANISM).contains(&text.len()) && text.iter().all(|&x| test(x))
}

// Whether a text is of a mechanism name's form.
pub fn is_mechanism(name: &[u8]) -> bool
    ensures { result ≡ mechanism name.now }
{
    is_formed(name, is_mech_char)
}

// Whether a text spells a name: whether it is of that form with its small letters read as capitals.
pub fn is_spelling(text: &[u8]) -> bool
    ensures { result ≡ spelling text.now }
{
    is_formed(text, |x| is_mech_char(x) || x.is_ascii_lowercase())
}

// A name in twenty octets, padded with NUL. A longer text, which is no name, is cut.
#[tactic(auto, unfolding(crate::specs::Mechanism::padded))]
pub fn name_of(name: &[u8]) -> [u8; LONGEST_MECHANISM]
    ensures { result ≡ padded name.now }
{
    octets::padded_to(name)
}

// The name that a text spells, in twenty octets: its small letters as capitals. A longer text, which spells none, is cut.
#[tactic(auto, using(crate::proofs::Names::spelled))]
pub fn name_spelled(text: &[u8]) -> [u8; LONGEST_MECHANISM]
    ensures { result ≡ padded (capitals text.now) }
{
    let mut name = name_of(text);
    name.make_ascii_uppercase();
    name
}

// Whether two names are the same.
#[tactic(auto, using(octets::proofs::Chains::same_is))]
pub fn same_name(a: [u8; LONGEST_MECHANISM], b: [u8; LONGEST_MECHANISM]) -> bool
    ensures { result ≡ same a b }
{
    a == b
}
