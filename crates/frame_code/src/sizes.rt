//! How long hellos and frames are.

/// The bytes of a hello.
pub const HELLO_BYTES: usize = 38;

/// The bytes of a frame that names its message, the longest of all.
pub const NAMED_BYTES: usize = 18;
