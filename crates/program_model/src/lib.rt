//! Programs as definitions: the instructions that each party follows in each session, batch after batch, and what each
//! does, with their laws.
#![tactic(auto)]

mod half;
mod instruction;
mod laws;

pub use half::Half;
pub use instruction::Instruction;
pub use laws::{reads_taken, takes_differ, takes_rise};
