//! Groups of parties, as texts name them.
#![tactic(auto)]

mod fault;
mod group_parts;
mod groups;

pub use fault::GroupFault;
pub use groups::read_group;
