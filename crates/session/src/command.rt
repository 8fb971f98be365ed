// A line where no exchange runs.
ghost use Rattle.std.specs.Prelude.{◌≡◌};
ghost use Rattle.session.specs.Command.{on_command};

use crate::Session;
use crate::change::Change;
use crate::view::Offer;
use lines::command::Command;
use profile::Reply;

impl Session {
    #[tactic(auto, unfolding(crate::specs::Command::on_command))]
    pub(crate) fn on_command(self, command: Command, offer: Option<Offer>, ticket: u64) -> Change
        ensures { result ≡ on_command self command offer ticket }
    {
        match command {
            Command::NotUnderstood => self.says(Reply::NotUnderstood),
            Command::Malformed => self.says(Reply::Syntax),
            Command::Ehlo => self.forwards(true, false),
            Command::Helo => self.forwards(false, false),
            Command::Rset => self.forwards(self.greeted, false),
            Command::Mail(mail) => self.on_mail(mail),
            Command::Auth(auth) => self.on_auth(auth, offer, ticket),
            Command::Barred => self.says(Reply::WrongMoment),
            Command::Quit | Command::Other => self.forwards(self.greeted, self.transaction),
        }
    }
}
