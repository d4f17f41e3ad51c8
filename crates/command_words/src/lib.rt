//! What the words of a command line ask for.
#![tactic(auto)]

mod command;

pub use command::{Command, Refused, read_command};
