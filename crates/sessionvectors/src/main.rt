// Dialogues, run through a session's steps. What they must print is in the file stdout, which expected.py makes from the papers.
#![tactic(auto)]

mod dialogues;
mod run;
mod show;

use std::io;

fn main(rt: HostRuntime) -> io::Result<()> {
    dialogues::commands(&rt)?;
    dialogues::checks(&rt)?;
    dialogues::spellings(&rt)?;
    dialogues::exchanges(&rt)?;
    dialogues::verdicts(&rt)?;
    dialogues::pop3(&rt)?;
    dialogues::unreached(&rt)
}
