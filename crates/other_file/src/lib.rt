//! The file of other inputs, which parties give in a second run of a job.
#![tactic(auto)]

mod checks;
mod fault;
mod other;
mod parties;

pub use fault::OtherFault;
pub use other::read_other;
