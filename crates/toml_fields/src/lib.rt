//! Files of TOML with fields: the document of some bytes, and its fields by name and kind.
#![tactic(auto)]

mod documents;
mod fields;
mod keys;
mod kind;
mod values;

pub use documents::document;
pub use fields::{fields_at, has_field, integer_at, is_misfit, items_at, text_at, texts_at};
pub use keys::least_unknown;
pub use kind::Kind;
pub use values::{fields_of, integer_of, items_of, text_of, texts_of};
