//! Circuits in layers: the gates sorted by how many products stand before them, so that all products of a layer stand
//! side by side.
#![tactic(auto)]

mod gate_keys;
mod laws;
mod sorting;

pub use laws::{depths_have_one_solution, layers_compute_the_same, layers_stand_in_order};
pub use sorting::{in_layers, ordered};
