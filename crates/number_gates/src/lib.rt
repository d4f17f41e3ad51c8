//! Gates that compute with whole numbers, bit by bit: comparisons, choices, sums, differences, products and
//! quotients of the numbers that bits on wires stand for. A number is a list of bits, the least first. Each
//! function adds exactly the gates of the definition of its name, and fails only where there is too little
//! memory.
#![tactic(auto)]

mod bit_lists;
mod carries;
mod gates;
mod numbers;
mod products;
mod quotients;
mod wire;

pub use bit_lists::{copied, front, joined, widened};
pub use carries::{Carry, Chain};
pub use gates::{BitGates, Joint};
pub use products::Pair;
pub use quotients::{Borrow, Division};
pub use wire::{Bit, DraftGate, Wire};
