//! Large jobs made from a number: the plan, the inputs, and a piece of tape for each party.
#![tactic(auto)]

mod circuit;
mod inputs;
mod laws;
mod plan;
mod sample;
mod tapes;

pub use laws::small_samples_are_as_worked;
pub use sample::{Sample, make_sample};
