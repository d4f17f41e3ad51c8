//! What the line of a refusal tells of a fault, as a table of each kind of fault gives it.
#![tactic(auto)]

mod entry;
mod key;

pub use entry::{Entry, MOST_KEYS};
pub use key::{EntryKey, KeyValue};
