// A script of calls, a line each: what a line says, and how a line of any length is kept.
#![tactic(auto)]

pub mod command;
pub mod hex;
pub mod kept;
pub mod number;
mod word;
