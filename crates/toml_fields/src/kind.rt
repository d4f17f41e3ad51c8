//! Kinds of fields.

/// The kind that a field is to be of. A list with an item of another kind is of another kind.
#[derive(Clone, Copy, Debug, PartialEq, Eq)]
pub enum Kind {
    Integer,
    Text,
    Texts,
    TextLists,
    Tables,
    Fields,
}
