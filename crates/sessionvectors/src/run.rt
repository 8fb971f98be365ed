// A dialogue: events with "|" between them, the first octet of each its kind.
// > a line; # a line of so many octets: a number, a space, how the line begins, and letters.
// c s r t p w: a verdict (challenge, success, rejected, temporary, transition, weak) on the last ticket, with what follows as its data;
// C a challenge of so many octets; o success on a ticket that was not issued, b on the one before the last.
// e: mail ended.
// By hand: g the session is greeted, n in a transaction; m no ticket is left, M one is.
use crate::show;
use lines::mechanism::{name_of, same_name};
use profile::Profile;
use profile::numbers::Verdict;
use session::Session;
use session::answer::Answer;
use session::view::{Offer, View};
use std::io;
use textvectors::show::Quoted;
use textvectors::words::rest;

#[derive(Clone, Copy)]
struct Run {
    session: Session,
    ticket: u64,
    next: u64,
}

// The server of these dialogues has four mechanisms: whether the client speaks first, whether it needs protection.
const MECHANISMS: [(&[u8], bool, bool); 4] = [
    (b"PLAIN", true, true),
    (b"CRAM-MD5", false, false),
    (b"CLIENT-ANY", true, false),
    (b"SERVER-TLS", false, true),
];

fn offer(view: View, line: &[u8]) -> Option<Offer> {
    let name = view.mechanism(line);
    for (word, client_first, needs_protection) in MECHANISMS {
        if same_name(name, name_of(word)) {
            return Some(Offer {
                client_first,
                needs_protection,
            });
        }
    }
    None
}

// A number of at most five digits that a text begins with.
fn decimal(text: &[u8]) -> usize {
    let mut n: usize = 0;
    for x in text {
        if !x.is_ascii_digit() || 10000 <= n {
            return n;
        }
        n = n * 10 + usize::from(*x - b'0');
    }
    n
}

impl Run {
    fn line(mut self, rt: &impl Print, line: &[u8]) -> io::Result<Run> {
        let s = self.session;
        let view = s.read(line);
        let stepped = s.line(view, offer(view, line), self.next);
        show::answer(rt, stepped.answer, s.profile, b"", view, line)?;
        self.session = stepped.session;
        if let Answer::Query { ticket, .. } = stepped.answer {
            self.ticket = ticket;
            self.next = ticket.wrapping_add(1);
        }
        Ok(self)
    }

    fn verdict(
        mut self,
        rt: &impl Print,
        ticket: u64,
        verdict: Verdict,
        bytes: &[u8],
    ) -> io::Result<Run> {
        let s = self.session;
        let stepped = s.verdict(ticket, verdict, bytes);
        show::answer(rt, stepped.answer, s.profile, bytes, View::Unread, b"")?;
        self.session = stepped.session;
        Ok(self)
    }

    fn long_line(self, rt: &impl Print, text: &[u8]) -> io::Result<Run> {
        let mut line = [b'A'; 12300];
        octets::write(rest(text, 1), &mut line, 0);
        self.line(rt, octets::part(&line, 0, decimal(text)))
    }

    fn long_challenge(self, rt: &impl Print, text: &[u8]) -> io::Result<Run> {
        let bytes = [b'A'; 9300];
        let last = self.ticket;
        self.verdict(
            rt,
            last,
            Verdict::Challenge,
            octets::part(&bytes, 0, decimal(text)),
        )
    }

    // The end of a transaction, and what is set by hand.
    fn set(mut self, rt: &impl Print, kind: u8) -> io::Result<Run> {
        let mut s = self.session;
        match kind {
            b'e' => {
                s = s.mail_ended();
            }
            b'g' => {
                s.greeted = true;
            }
            b'n' => {
                s.transaction = true;
            }
            b'm' => {
                self.next = Session::UNISSUED;
            }
            b'M' => {
                self.next = Session::UNISSUED - 1;
            }
            _ => {
                print!(rt; "not ")?;
            }
        }
        print!(rt; "done")?;
        self.session = s;
        Ok(self)
    }

    fn event(self, rt: &impl Print, kind: u8, bytes: &[u8]) -> io::Result<Run> {
        let last = self.ticket;
        match kind {
            b'>' => self.line(rt, bytes),
            b'#' => self.long_line(rt, bytes),
            b'c' => self.verdict(rt, last, Verdict::Challenge, bytes),
            b's' => self.verdict(rt, last, Verdict::Success, bytes),
            b'r' => self.verdict(rt, last, Verdict::Rejected, bytes),
            b't' => self.verdict(rt, last, Verdict::Temporary, bytes),
            b'p' => self.verdict(rt, last, Verdict::Transition, bytes),
            b'w' => self.verdict(rt, last, Verdict::Weak, bytes),
            b'C' => self.long_challenge(rt, bytes),
            b'o' => self.verdict(rt, 77, Verdict::Success, bytes),
            b'b' => self.verdict(rt, last.wrapping_sub(1), Verdict::Success, bytes),
            _ => self.set(rt, kind),
        }
    }

    fn row(self, rt: &impl Print, text: &[u8]) -> io::Result<Run> {
        match text {
            [] => Ok(self),
            [kind, bytes @ ..] => {
                print!(rt; "{} {}: ", self.session.profile, Quoted(text))?;
                let next = self.event(rt, *kind, bytes)?;
                show::stands(rt, next.session)?;
                Ok(next)
            }
        }
    }
}

// A connection of its own for each dialogue.
pub(crate) fn dialogue(
    rt: &impl Print,
    p: Profile,
    protected: bool,
    events: &[u8],
) -> io::Result<()> {
    println!(rt)?;
    let mut run = Run {
        session: Session::opened(p, protected),
        ticket: 0,
        next: 1,
    };
    for event in events.split(|x| *x == b'|') {
        run = run.row(rt, event)?;
    }
    Ok(())
}
