//! The maximal tolerated groups of a family (Hirt and Maurer: the basis of an adversary structure).
#![tactic(auto)]

mod family;
mod find;
mod listed;

pub use family::Family;
pub use find::{GroupsFault, all_parties_alone, find_groups, maximal_groups_tell};
pub use listed::{Listed, lists_may_differ, maximal_groups_as_a_list};
