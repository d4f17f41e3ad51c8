//! The top call: from the words and the files to the bytes.
#![tactic(auto)]

mod audit;
mod call;
mod means;
mod node;
mod other;
mod pair;
mod parties;
mod run;
mod sample;
mod stop_text;

pub use call::{command, command_alone};
pub use job_walk::Stop;
