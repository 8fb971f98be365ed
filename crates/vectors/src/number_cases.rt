// Profiles and verdicts by their numbers.
use profile::numbers::Refusal;
use std::{fmt, io};

pub(crate) fn row<T: TryFrom<u64, Error = Refusal> + fmt::Display + Drop>(
    rt: &impl Print,
    word: &str,
    n: u64,
) -> io::Result<()> {
    match T::try_from(n) {
        Ok(listed) => println!(rt; "{word} {n}: {listed}"),
        Err(_) => println!(rt; "{word} {n}: not listed"),
    }
}
