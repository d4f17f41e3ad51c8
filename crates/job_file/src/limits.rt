//! The limits of a job's file.

/// The most bytes of the name of a file.
pub const LONGEST_FILE_NAME: usize = 64;

/// The most bytes of a host.
pub const LONGEST_HOST: usize = 64;

/// The most tolerated groups that a file may list.
pub const MOST_TOLERATED: usize = 4_096;

/// The last port of a job: its pipes take the 144 ports from it on.
pub const LAST_PORT: u16 = 65_392;
