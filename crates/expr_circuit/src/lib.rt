//! Small programs of input lines, named expressions and output lines, compiled to circuits in the layout with
//! operations on words. Their lines are those of `line_grammar` over words:
//!
//! ```text
//! line   = "input" name | "let" name "=" expr | "output" expr
//! expr   = prod {("+" | "-") prod}
//! prod   = unary {"*" unary}
//! unary  = "-" unary | number | name | "(" expr ")"
//! ```
#![tactic(auto)]

mod assembly;
mod compiler;
mod draft;
mod fault;
mod gates;
mod laws;
mod names;
mod program_line;
mod wire;

pub use compiler::{compile, read};
pub use fault::ExprFault;
pub use laws::{
    a_compiled_circuit_has_the_value, a_compiled_text_is_read_back, each_text_has_one_answer,
};
