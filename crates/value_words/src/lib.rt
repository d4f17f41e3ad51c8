//! The words of a value: a word for each of its wires, or, in a session of numbers, a number for each lane, whose
//! bits the wires have.
#![tactic(auto)]

mod laws;
mod turned;

pub use laws::{numbers_come_back, words_come_back};
pub use turned::{MOST_BITS, as_numbers, is_numeric, wires_of, with_bit};
