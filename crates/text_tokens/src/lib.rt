//! The tokens of a text, and the numbers that they write. Nothing here takes memory.
//!
//! Blanks are space, tab, LF and CR, and tokens are the runs between blanks. A language may have its own tokens: words,
//! numbers and signs, which are the longest runs of their bytes, and symbols of one byte. It tells which bytes are
//! blank, of which bytes signs are made, and what token a word, a number, a sign or a symbol is.
#![tactic(auto)]

mod cut;
mod numbers;
mod runs;
mod token_language;
mod tokens;

pub use cut::{Cut, next_token};
pub use numbers::{is_decimal, is_digits, number, with_digit};
pub use runs::{number_at, word_at, word_bytes};
pub use token_language::TokenLanguage;
pub use tokens::{Tokens, is_blank};
