//! The limits of a formula.

/// The most parentheses that are open at once.
pub const MOST_OPEN: usize = 32;

/// The most elements, which `TooManyNodes` counts.
pub const MOST_NODES: usize = 256;
