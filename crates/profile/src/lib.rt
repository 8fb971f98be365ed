// The two profiles, SMTP and POP3: their limits, and what their clients hear.
#![tactic(auto)]

ghost use Rattle.std.specs.Prelude.{◌≡◌, length, Some};
ghost use Rattle.octets.specs.Answers.{written, encoded};
ghost use Rattle.profile.specs.Limits.{command_limit, mail_limit, response_limit};
ghost use Rattle.profile.specs.Numbers.{profile_number, profile_of, printed_profile};
ghost use Rattle.profile.specs.Texts.{crlf, reply, challenge_prefix};

pub mod numbers;
mod texts;

use numbers::Refusal;
use std::fmt;

#[derive(Clone, Copy, Debug, PartialEq, Eq)]
pub enum Profile {
    Smtp,
    Pop3,
}

// The events that have a text of their own.
#[derive(Clone, Copy, Debug, PartialEq, Eq)]
pub enum Reply {
    Success,
    Transition,
    Temporary,
    ResponseTooLong,
    NotUnderstood,
    Syntax,
    Cancelled,
    InitialResponse,
    WrongMoment,
    Unavailable,
    Weak,
    Rejected,
}

// The longest lines, without CRLF.
impl Profile {
    pub const SMTP_COMMAND: usize = 510;

    pub const SMTP_MAIL: usize = 1010;

    pub const POP3_COMMAND: usize = 253;

    pub const POP3_MAIL: usize = Profile::POP3_COMMAND;

    pub const RESPONSE: usize = 12286;

    pub fn smtp() -> Profile
        ensures { result ≡ Profile.Smtp }
    {
        Profile::Smtp
    }

    pub fn pop3() -> Profile
        ensures { result ≡ Profile.Pop3 }
    {
        Profile::Pop3
    }

    pub fn command_limit(self) -> usize
        ensures { result ≡ command_limit self }
    {
        match self {
            Profile::Smtp => Profile::SMTP_COMMAND,
            Profile::Pop3 => Profile::POP3_COMMAND,
        }
    }

    pub fn mail_limit(self) -> usize
        ensures { result ≡ mail_limit self }
    {
        match self {
            Profile::Smtp => Profile::SMTP_MAIL,
            Profile::Pop3 => Profile::POP3_MAIL,
        }
    }

    pub fn response_limit(self) -> usize
        ensures { result ≡ response_limit self }
    {
        Profile::RESPONSE
    }

    // Writes the reply to an event, with CRLF, to the start of out. Where it does not fit, out is left as it is.
    pub fn say(self, event: Reply, out: &mut [u8]) -> Option<usize>
        ensures { (result ≡ encoded (reply self event) (length out.old) 0) × (out.new ≡ written out.old 0 (reply self event)) }
    {
        let text = match self {
            Profile::Smtp => texts::smtp(event),
            Profile::Pop3 => texts::pop3(event),
        };
        octets::write(text, out, 0)
    }

    // What a challenge begins with; its base64 and CRLF follow.
    pub fn challenge_prefix(self) -> &'static [u8]
        ensures { result.now ≡ challenge_prefix self }
    {
        match self {
            Profile::Smtp => b"334 ",
            Profile::Pop3 => b"+ ",
        }
    }

    // Writes what a challenge begins with to the start of out.
    pub fn begin_challenge(self, out: &mut [u8]) -> Option<usize>
        ensures { (result ≡ encoded (challenge_prefix self) (length out.old) 0) × (out.new ≡ written out.old 0 (challenge_prefix self)) }
    {
        octets::write(self.challenge_prefix(), out, 0)
    }
}

impl TryFrom<u64> for Profile {
    type Error = Refusal;

    ghost try_from_gives = { λ n r. r ≡ profile_of n };

    // The profile of a number; any number may be asked.
    fn try_from(number: u64) -> Result<Profile, Refusal> {
        match number {
            0 => Ok(Profile::Smtp),
            1 => Ok(Profile::Pop3),
            _ => Err(Refusal::NotListed),
        }
    }
}

impl fmt::Display for Profile {
    ghost output = { λ p. Some (printed_profile p) };

    fn fmt<W: fmt::Write>(&self, f: &mut fmt::Formatter<W>) -> fmt::Result {
        f.write_str(match self {
            Profile::Smtp => "smtp",
            Profile::Pop3 => "pop3",
        })
    }
}

impl From<Profile> for u64 {
    ghost from_gives = { λ p n. n ≡ profile_number p };

    fn from(profile: Profile) -> u64 {
        profile as u64
    }
}

// Writes the CRLF that follows every reply into out from index at on. Where it does not fit, out is left as it is.
pub fn end_line(out: &mut [u8], at: usize) -> Option<usize>
    ensures { (result ≡ encoded crlf (length out.old) at) × (out.new ≡ written out.old at crlf) }
{
    octets::write(b"\r\n", out, at)
}
