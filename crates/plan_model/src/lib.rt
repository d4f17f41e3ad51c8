//! Plans as definitions: who takes part in which sessions, who sends what to whom, and the numbering of messages and
//! tape words, with its laws.
#![tactic(auto)]

mod key;
mod laws;
mod pattern;
mod ranks;
mod starts;
mod transfers;

pub use key::Key;
pub use laws::{deals_have_slots, numbers_are_inverse, places_are_apart, slots_follow_patterns};
pub use pattern::{Pattern, Transfer, TransferOrder};
pub use ranks::search;
pub use starts::Starts;
pub use transfers::Transfers;
