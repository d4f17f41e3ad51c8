//! The file of a party: the inputs that it gives, and the random words that it draws, session by session.
#![tactic(auto)]

mod data;
mod fault;
mod field;
mod fields;
mod inputs;
mod laws;
mod number_inputs;
mod numbers;
mod party;
mod tapes;

pub use data::PartyData;
pub use fault::{PartyFault, WordCause};
pub use field::PartyField;
pub use fields::check_version;
pub use inputs::read_inputs;
pub use laws::inputs_are_numbers;
pub use party::read_party;
