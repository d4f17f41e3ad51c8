//! Halves of a slot.

/// What a party does in a slot before it needs what others post, or the rest.
#[derive(Clone, Copy, Debug, PartialEq, Eq)]
pub enum Half {
    /// What it computes and deals, and its posts.
    Head,
    /// Its takes, and what it makes of the words.
    Tail,
}
