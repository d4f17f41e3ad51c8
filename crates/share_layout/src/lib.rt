//! Which party holds which summand of a shared value.
#![tactic(auto)]

mod layout;

pub use layout::{Layout, each_summand_is_held};
