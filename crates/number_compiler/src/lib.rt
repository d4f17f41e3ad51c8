//! The circuit of bits of a program over whole numbers.
#![tactic(auto)]

mod assembly;
mod compiler;
mod draft;
mod elements;
mod inputs;
mod laws;
mod names;
mod number;
mod operators;
mod pending;

pub use compiler::read;
pub use laws::{
    a_compiled_program_has_its_values, compiled_wires_have_depths, each_text_has_one_answer,
};
