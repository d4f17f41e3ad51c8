//! All desks of a world, by workers in threads of their own that pass the desks on through slots.
#![tactic(auto)]

mod done;
mod finish;
mod pool;
mod promised;
mod ready;
mod steps;

pub use done::Done;
pub use ready::{Ready, prepare};
