//! Tapes of random words, each of which is drawn once and spent.
#![tactic(auto)]

mod buffers;
mod tape;
mod word;
mod word_pairs;

pub use tape::{SplitFault, Tape, TapeFault};
pub use word::TapeWord;
