//! A node: one party of a job run by itself, over a link to each other party.
#![tactic(auto)]

mod cells;
mod done;
mod flushes;
mod hellos;
mod last_slot;
mod laws;
mod mailbox;
mod parking;
mod readers;
mod ready;
mod run;
mod sessions;

pub use done::NodeDone;
pub use laws::every_node_part_is_of_a_world;
pub use ready::NodeReady;
