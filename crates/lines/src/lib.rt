// What a client's line says, in numbers and enums: where things stand in it, and how long they decode to.
#![tactic(auto)]

pub mod auth;
pub mod command;
pub mod mechanism;
pub mod response;
pub mod verb;
