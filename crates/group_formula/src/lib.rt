//! Monotone formulas over the names of parties, which tell what groups are qualified (Ito, Saito, Nishizeki 1987: a
//! monotone access structure).
//!
//! ```text
//! expr   = term {"|" term}
//! term   = factor {"&" factor}
//! factor = name | "(" expr ")" | number "of" "(" expr {"," expr} ")"
//! ```
#![tactic(auto)]

mod element;
mod fault;
mod formula;
mod formula_parser;
mod limits;
mod parse;
mod read;
mod resolve;
mod token;
mod values;

pub use fault::FormulaFault;
pub use formula::{Formula, all_parties_are_qualified};
pub use limits::{MOST_NODES, MOST_OPEN};
pub use read::{each_text_has_one_answer, read_formula};
