// MAIL.
ghost use Rattle.std.specs.Prelude.{◌≡◌};
ghost use Rattle.session.specs.Mail.{relayed, relays, begins, on_mail};

use crate::Session;
use crate::answer::Answer;
use crate::change::Change;
use mail::Mail;
use profile::Reply;
use profile::numbers::Identity;

impl Session {
    // The line is passed on with an identity; with "<>" where nobody is signed in.
    fn relayed(self, identity: Identity, length: usize) -> Answer
        ensures { result ≡ relayed self identity length }
    {
        if self.is_signed_in() {
            Answer::Forward { identity, length }
        } else {
            Answer::Forward {
                identity: Identity::Null,
                length: 0,
            }
        }
    }

    // And the transaction is opened.
    fn relays(self, identity: Identity, length: usize) -> Change
        ensures { result ≡ relays self identity length }
    {
        Change {
            transaction: true,
            ..self.stays(self.relayed(identity, length))
        }
    }

    // MAIL where no transaction is open.
    fn begins(self, mail: Option<Mail>) -> Change
        ensures { result ≡ begins self mail }
    {
        match mail {
            None => self.says(Reply::Syntax),
            Some(Mail::Absent) => self.relays(Identity::Absent, 0),
            Some(Mail::Null) => self.relays(Identity::Null, 0),
            Some(Mail::Address { length, .. }) => self.relays(Identity::Address, length),
        }
    }

    #[tactic(auto, unfolding(crate::specs::Mail::on_mail))]
    pub(crate) fn on_mail(self, mail: Option<Mail>) -> Change
        ensures { result ≡ on_mail self mail }
    {
        if self.transaction {
            self.says(Reply::WrongMoment)
        } else {
            self.begins(mail)
        }
    }
}
