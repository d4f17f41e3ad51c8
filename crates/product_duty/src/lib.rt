//! Which party multiplies which pair of summands.
#![tactic(auto)]

mod duty;
mod pairs;

pub use duty::{Duty, each_pair_has_one_duty, structure_gives_a_scheme};
pub use pairs::Pairs;
