// Outside vectors, run through the proved functions. What they must print is in the file stdout, which expected.py makes from the papers.
#![tactic(auto)]

mod cases;
mod long;
mod number_cases;
mod octet_counts;
mod readings;
mod reply_cases;
mod show;

use std::io;

fn main(rt: HostRuntime) -> io::Result<()> {
    textvectors::run(&rt)?;
    cases::numbers(&rt)?;
    reply_cases::run(&rt)?;
    cases::commands(&rt)?;
    cases::mails(&rt)?;
    cases::answers(&rt)
}
