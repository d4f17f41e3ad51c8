//! The parties' names.
#![tactic(auto)]

mod name_text;
mod names;

pub use name_text::NameText;
pub use names::{LONGEST_NAME, Names, NamesFault, names_have_no_fault, read_names};
