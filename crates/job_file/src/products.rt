//! How the products of a session are made.

/// Whether the products of a session are direct or prepared, and then in which order the preparation comes.
#[derive(Clone, Copy, Debug, PartialEq, Eq)]
pub enum Products {
    /// Each product is made at its gate.
    Direct,
    /// Each is prepared: the masks of its factors and then the product of these, one product after another.
    Prepared,
    /// Each is prepared: the masks of all products first, and then all products of masks.
    Ahead,
}
