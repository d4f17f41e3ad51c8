//! Circuit files in the two layouts, read exactly, and written: a file stands for one circuit, or has one first fault.
#![tactic(auto)]

mod file;
mod gate_line;
mod header;
mod laws;
mod layout;
mod scan;
mod tokens;
mod writer;

pub use file::read;
pub use laws::{a_written_circuit_is_read_back, each_file_has_one_answer};
pub use writer::write;
