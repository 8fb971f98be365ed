// The verb of a line.
ghost use Rattle.std.specs.Prelude.{◌≡◌};
ghost use Rattle.octets.specs.Ascii.{capitals};
ghost use Rattle.lines.specs.Verb.{verb, verb_of};

// The verbs that have rules of their own.
#[derive(Clone, Copy, Debug, PartialEq, Eq)]
pub enum Verb {
    Ehlo,
    Helo,
    Rset,
    Quit,
    Mail,
    Auth,
    User,
    Pass,
    Apop,
    Other,
}

// The verb of a line. Each that has rules is four octets long, so the line is read no further than its fifth octet.
#[tactic(auto, using(crate::proofs::Verbs::verbs))]
pub fn read_verb(line: &[u8]) -> Verb
    ensures { result ≡ verb_of (verb line.now) }
{
    match line {
        [a, b, c, d] | [a, b, c, d, b' ', ..] => verb_of([*a, *b, *c, *d]),
        _ => Verb::Other,
    }
}

// The verb that four octets are, case ignored.
#[tactic(auto, using(crate::proofs::Verbs::words), unfolding(crate::specs::Verb::verb_of))]
fn verb_of(mut word: [u8; 4]) -> Verb
    ensures { result ≡ verb_of (capitals word) }
{
    word.make_ascii_uppercase();
    match &word {
        b"EHLO" => Verb::Ehlo,
        b"HELO" => Verb::Helo,
        b"RSET" => Verb::Rset,
        b"QUIT" => Verb::Quit,
        b"MAIL" => Verb::Mail,
        b"AUTH" => Verb::Auth,
        b"USER" => Verb::User,
        b"PASS" => Verb::Pass,
        b"APOP" => Verb::Apop,
        _ => Verb::Other,
    }
}
