//! The texts of a node: the outputs that it reads when it is done, and its own view, or the line of the fault that
//! ended its run. They are written without memory.
#![tactic(auto)]

mod fault;
mod hex;
mod lines;
mod view;

pub use fault::write_fault;
pub use lines::write_node;
