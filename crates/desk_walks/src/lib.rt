//! Walks of desks: a desk does the instructions that come next, one after another, on a board that threads share.
#![tactic(auto)]

mod beside;
mod walks;

pub use walks::walk_gates;
