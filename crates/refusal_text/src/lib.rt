//! The line of each refusal.
#![tactic(auto)]

mod fault;
mod files;
mod line;
mod masked;
mod parties;
mod plan;
mod structure;
mod views;

pub use fault::{Fault, fault_line};
pub use files::too_long_line;
pub use line::{file_key, session_key};
pub use structure::{covering_line, name_line};
