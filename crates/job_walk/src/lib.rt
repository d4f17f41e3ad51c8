//! The walk through the files of a job: each file is judged before the next is read.
#![tactic(auto)]

mod file;
mod file_log;
mod group;
mod job;
mod node;
mod party;
mod plan;
mod sessions;
mod stop;
mod structure;

pub use file::read_file;
pub use file_log::{FileLog, NoLog};
pub use node::{NodeJob, read_node};
pub use party::read_party_file;
pub use plan::{Planned, read_planned};
pub use stop::{Stop, stop_of};
