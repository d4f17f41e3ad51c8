//! Parts of texts: numbers, words and groups of parties.
#![tactic(auto)]

mod gathered;
mod parts;

pub use gathered::{gather_group, gather_number, gather_word};
pub use parts::{push_group, push_number, push_signed, push_text};
