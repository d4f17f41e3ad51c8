//! What is wrong with a job's file.
ghost use Rattle.std.specs.Prelude.{◌≡◌};
ghost use Rattle.job_file.specs.declared.fault.JobFault.TheVariants.{Memory};

use crate::field::JobField;
use party_names::{NameText, NamesFault};
use std::alloc::AllocError;

/// The first fault of a job's file. Sessions, output values and places in a list are counted from 0. A fault of the top
/// table has no session.
#[derive(Drop)]
pub enum JobFault {
    /// The bytes are no document of TOML.
    NotToml,
    /// The version is neither 1 nor 2.
    Version {
        found: i64,
    },
    /// A field is missing.
    Missing {
        session: Option<u32>,
        field: JobField,
    },
    /// A field that a job does not have; the least by bytes.
    Unknown {
        session: Option<u32>,
        name: NameText,
    },
    /// A field of another kind.
    WrongKind {
        session: Option<u32>,
        field: JobField,
    },
    /// The bits of the ring are not 1 to 64.
    BadRing {
        bits: i64,
    },
    /// An owner that is no party.
    BadOwner {
        session: u32,
        at: u64,
    },
    /// An owner that begins with `@`, and tells no output value of an earlier session (version 2).
    BadCarry {
        session: u32,
        at: u64,
    },
    /// A reader of a value that is no party, or stands before in the value's list.
    BadReader {
        session: u32,
        value: u32,
        at: u64,
    },
    /// The name of a circuit's file is out of form.
    BadFileName {
        session: u32,
    },
    /// The layout of a circuit is none.
    BadLayout {
        session: u32,
    },
    /// The text that tells how products are made is none of its three.
    BadProducts {
        session: u32,
    },
    /// The text that tells the order of gates is neither of its two.
    BadOrder {
        session: u32,
    },
    /// There is no session, or there are more than 16.
    SessionCount {
        count: u64,
    },
    /// A host is out of form, or hosts or parties are missing from here on.
    BadHost {
        at: u64,
    },
    /// The port is not 1 to 65392.
    BadPort {
        port: i64,
    },
    /// The text that tells the form of frames is neither of its two.
    BadFrames,
    /// The text that tells whether nodes write views is neither of its two.
    BadViews,
    /// A text of a tolerated group that is no party, or stands before in the group's list.
    BadTolerated {
        value: u32,
        at: u64,
    },
    /// There are more than 4,096 tolerated groups.
    TooManyTolerated {
        count: u64,
    },
    /// The names of the parties have a fault.
    Names {
        fault: NamesFault,
    },
    /// There is not enough memory.
    Memory,
}

impl From<AllocError> for JobFault {
    ghost from_gives = { λ _ fault. fault ≡ Memory };

    fn from(_: AllocError) -> JobFault {
        JobFault::Memory
    }
}
