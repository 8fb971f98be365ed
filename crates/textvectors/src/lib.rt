// Vectors of base64 and xtext, the printing of texts and answers, and the words of a row.
#![tactic(auto)]

mod cases;
mod form;
mod rows;
pub mod show;
pub mod words;

use std::io;

pub fn run(rt: &impl Print) -> io::Result<()> {
    cases::run(rt)
}
