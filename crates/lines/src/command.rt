// A line where no exchange runs.
ghost use Rattle.std.specs.Prelude.{◌≡◌, not};
ghost use Rattle.octets.specs.Lists.{is_empty, holds, after};
ghost use Rattle.lines.specs.Verb.{space};
ghost use Rattle.lines.specs.Command.{command, forbidden, limit, pop3, smtp, understood};

use crate::auth::{Auth, read_auth};
use crate::verb::{Verb, read_verb};
use mail::Mail;
use profile::Profile;

// A line where no exchange runs. NotUnderstood: too long, or with a forbidden octet. Malformed: EHLO, HELO, RSET or QUIT not of its form; a MAIL or an
// AUTH that is not has no reading. Neither is an error: a session answers each case with a text of its own. Barred: a verb that is never permitted.
// Other: any verb without a rule.
#[derive(Clone, Copy, Debug, PartialEq, Eq)]
pub enum Command {
    NotUnderstood,
    Malformed,
    Ehlo,
    Helo,
    Rset,
    Quit,
    Mail(Option<Mail>),
    Auth(Option<Auth>),
    Barred,
    Other,
}

// Whether a line holds NUL, CR or LF.
fn holds_forbidden(line: &[u8]) -> bool
    ensures { result ≡ forbidden line.now }
{
    line.iter().any(|x| matches!(x, 0 | b'\r' | b'\n'))
}

// The longest line with a verb.
fn limit(p: Profile, verb: Verb) -> usize
    ensures { result ≡ limit p verb }
{
    match verb {
        Verb::Mail => p.mail_limit(),
        _ => p.command_limit(),
    }
}

// Whether a line is not too long and holds no forbidden octet. One that is too long is not read through.
#[tactic(auto, unfolding(crate::specs::Command::understood))]
fn is_understood(p: Profile, verb: Verb, line: &[u8]) -> bool
    ensures { result ≡ understood p verb line.now }
{
    line.len() <= limit(p, verb) && !holds_forbidden(line)
}

// Whether a space and at least one octet more follow the verb.
#[tactic(auto, using(crate::proofs::Commands::ends))]
fn has_argument(line: &[u8]) -> bool
    ensures { result ≡ not (is_empty (after space line.now)) }
{
    octets::find(line, 0, b' ') + 1 < line.len()
}

// Whether nothing follows the verb.
#[tactic(auto, using(crate::proofs::Commands::ends))]
fn is_bare(line: &[u8]) -> bool
    ensures { result ≡ not (holds space line.now) }
{
    octets::find(line, 0, b' ') == line.len()
}

// A command of an SMTP client, by its verb.
fn smtp(verb: Verb, line: &[u8]) -> Command
    ensures { result ≡ smtp verb line.now }
{
    match verb {
        Verb::Ehlo if has_argument(line) => Command::Ehlo,
        Verb::Helo if has_argument(line) => Command::Helo,
        Verb::Rset if is_bare(line) => Command::Rset,
        Verb::Quit if is_bare(line) => Command::Quit,
        Verb::Ehlo | Verb::Helo | Verb::Rset | Verb::Quit => Command::Malformed,
        Verb::Mail => Command::Mail(mail::read_mail(line)),
        Verb::Auth => Command::Auth(read_auth(line)),
        _ => Command::Other,
    }
}

// A command of a POP3 client, by its verb.
fn pop3(verb: Verb, line: &[u8]) -> Command
    ensures { result ≡ pop3 verb line.now }
{
    match verb {
        Verb::User | Verb::Pass | Verb::Apop => Command::Barred,
        Verb::Auth => Command::Auth(read_auth(line)),
        _ => Command::Other,
    }
}

// A line where no exchange runs.
#[tactic(auto, unfolding(crate::specs::Command::command))]
pub fn read_command(p: Profile, line: &[u8]) -> Command
    ensures { result ≡ command p line.now }
{
    let verb = read_verb(line);
    if !is_understood(p, verb, line) {
        return Command::NotUnderstood;
    }
    match p {
        Profile::Smtp => smtp(verb, line),
        Profile::Pop3 => pop3(verb, line),
    }
}
