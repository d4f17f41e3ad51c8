//! Texts of words: numbers separated by blanks.
//!
//! Blanks are space, tab, LF and CR, so a long list of words may stand on several lines.
#![tactic(auto)]

mod fault;
mod words;

pub use fault::WordsFault;
pub use words::read_words;
