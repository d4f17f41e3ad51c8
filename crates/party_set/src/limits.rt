//! The limits of parties and groups.

/// The most parties.
pub const MOST_PARTIES: usize = 12;

/// The most maximal groups of a structure, and so the most summands of a shared value.
pub const MOST_GROUPS: usize = 64;
