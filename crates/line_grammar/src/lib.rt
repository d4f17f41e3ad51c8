//! Lines of programs with expressions, read from left to right by one table of operators: for each operator its level,
//! the levels of its operands, and the languages that have it. The table is all that the proofs know of an operator.
//!
//! ```text
//! line    = "input" name [width] | "let" name "=" expr | "output" expr
//! expr    = "if" expr "then" expr "else" expr | or
//! or      = and {"or" and}
//! and     = not {"and" not}
//! not     = "not" not | comp
//! comp    = sum [("==" | "!=" | "<" | "<=" | ">" | ">=") sum]
//! sum     = prod {("+" | "-") prod}
//! prod    = minus {("*" | "/" | "%") minus}
//! minus   = "-" minus | atom
//! atom    = number | name | "(" expr ")" | ("min" | "max") "(" expr "," expr ")"
//! ```
//!
//! Words modulo a power of 2 have `+`, `-`, `*` and the minus before an operand, and their inputs no width. Whole
//! numbers have all but the two minuses, and their inputs have a width.
#![tactic(auto)]

mod dialect;
mod element;
mod fault;
mod frame;
mod laws;
mod limits;
mod line_parser;
mod lines;
mod mode;
mod operator;
mod parse;
mod token;

pub use dialect::Dialect;
pub use element::{ExprElement, Head};
pub use fault::LineFault;
pub use laws::{each_line_has_one_reading, words_have_plus_minus_and_times};
pub use limits::{LONGEST_NAME, MOST_OPEN};
pub use line_parser::LineParser;
pub use lines::cut_line;
pub use operator::{Infix, Pair, Prefix};
pub use parse::parse_line;
pub use token::LineToken;
