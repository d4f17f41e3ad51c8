//! Circuits: gates of nine operations over numbered wires, built gate by gate with every fault found.
#![tactic(auto)]

mod builder;
mod checks;
mod circuit;
mod fault;
mod gate;
mod laws;
mod layout;

pub use builder::Builder;
pub use checks::{are_large, check, exceeds};
pub use circuit::Circuit;
pub use fault::CircuitFault;
pub use gate::{Gate, Operation};
pub use laws::equations_have_one_solution;
pub use layout::CircuitLayout;
