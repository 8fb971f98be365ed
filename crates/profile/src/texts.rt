// The replies, as document 01's table has them, each followed by CRLF. A table for each profile: no text is in both.
ghost use Rattle.std.specs.Prelude.{◌≡◌};
ghost use Rattle.profile.specs.Texts.{reply};

use crate::{Profile, Reply};

#[tactic(auto, unfolding(crate::specs::Texts::reply))]
pub(crate) fn smtp(event: Reply) -> &'static [u8]
    ensures { result.now ≡ reply Profile.Smtp event }
{
    match event {
        Reply::Success => b"235 2.7.0 Authentication succeeded\r\n",
        Reply::Transition => b"432 4.7.12 Password transition needed\r\n",
        Reply::Temporary => b"454 4.7.0 Temporary authentication failure\r\n",
        Reply::ResponseTooLong => b"500 5.5.6 Authentication line too long\r\n",
        Reply::NotUnderstood => b"500 5.5.2 Line not understood\r\n",
        Reply::Syntax => b"501 5.5.2 Syntax error\r\n",
        Reply::Cancelled => b"501 5.7.0 Authentication cancelled\r\n",
        Reply::InitialResponse => b"501 5.7.0 Initial response not allowed\r\n",
        Reply::WrongMoment => b"503 5.5.1 Not permitted now\r\n",
        Reply::Unavailable => b"504 5.5.4 Mechanism not available\r\n",
        Reply::Weak => b"534 5.7.9 Mechanism too weak\r\n",
        Reply::Rejected => b"535 5.7.8 Credentials not accepted\r\n",
    }
}

#[tactic(auto, unfolding(crate::specs::Texts::reply, crate::specs::Texts::words, octets::specs::Lists::after))]
pub(crate) fn pop3(event: Reply) -> &'static [u8]
    ensures { result.now ≡ reply Profile.Pop3 event }
{
    match event {
        Reply::Success => b"+OK Authenticated\r\n",
        Reply::Transition => b"-ERR [AUTH] Password transition needed\r\n",
        Reply::Temporary => b"-ERR [SYS/TEMP] Temporary authentication failure\r\n",
        Reply::ResponseTooLong => b"-ERR Authentication line too long\r\n",
        Reply::NotUnderstood => b"-ERR Line not understood\r\n",
        Reply::Syntax => b"-ERR Syntax error\r\n",
        Reply::Cancelled => b"-ERR Authentication cancelled\r\n",
        Reply::InitialResponse => b"-ERR Initial response not allowed\r\n",
        Reply::WrongMoment => b"-ERR Not permitted now\r\n",
        Reply::Unavailable => b"-ERR Mechanism not available\r\n",
        Reply::Weak => b"-ERR Mechanism too weak\r\n",
        Reply::Rejected => b"-ERR [AUTH] Credentials not accepted\r\n",
    }
}
