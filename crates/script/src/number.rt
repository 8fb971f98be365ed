// Numbers in a script.
ghost use Rattle.std.specs.Prelude.{◌≡◌};
ghost use Rattle.script.specs.Number.{number, digits_from};

// A text as a number.
#[tactic(auto, using(crate::proofs::Decimal::beginnings), unfolding(crate::specs::Number::number))]
pub fn read_number(text: &[u8]) -> Option<u64>
    ensures { result ≡ number text.now }
{
    match text {
        [] | [b'0', _, ..] => None,
        _ => digits(text),
    }
}

// The same where zeros may stand first.
#[tactic(auto, using(crate::proofs::Decimal::digits))]
fn digits(text: &[u8]) -> Option<u64>
    ensures { result ≡ digits_from 0 text.now }
{
    let mut n: u64 = 0;
    for x in text {
        if !x.is_ascii_digit() {
            return None;
        }
        n = n.checked_mul(10)?.checked_add(u64::from(x - b'0'))?;
    }
    Some(n)
}
