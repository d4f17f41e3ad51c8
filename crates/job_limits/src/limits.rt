//! The limits of sessions, circuits, files and runs.

/// The most bytes of a file.
pub const FILE_LIMIT: u64 = 16_777_216;

/// The most sessions.
pub const MOST_SESSIONS: usize = 16;

/// The most gates of a circuit.
pub const MOST_GATES: u64 = 65_536;

/// The most wires of a circuit.
pub const MOST_WIRES: u64 = 131_072;

/// The most input values of a circuit, and the most output values.
pub const MOST_VALUES: u64 = 1_024;

/// The most messages.
pub const MOST_MESSAGES: u64 = 1_048_576;

/// The most tape words of a party, in all sessions.
pub const MOST_WORDS: u64 = 1_048_576;

/// The most workers of a run.
pub const MOST_WORKERS: u32 = 16;
