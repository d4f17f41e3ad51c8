//! The lines of a text, and their tokens. Nothing here takes memory.
//!
//! Lines end at LF.
#![tactic(auto)]

mod cursor;
mod lines;

pub use cursor::Cursor;
pub use lines::{Line, Lines};
