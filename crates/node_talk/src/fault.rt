//! Why a node stopped.

use frame_code::{FrameBytes, HELLO_BYTES};

/// The fault that ended a node's run.
#[derive(Clone, Copy, Debug, PartialEq, Eq)]
pub enum NodeFault {
    /// The outside failed at this peer's inlet or outlet.
    Link {
        peer: u32,
    },
    /// This peer's bytes ended after `at` bytes, with others missing.
    Closed {
        peer: u32,
        at: u64,
    },
    /// The bytes from a place on are not the frame of the message that is expected there, with a word of the ring.
    BadFrame {
        peer: u32,
        at: u64,
        bytes: FrameBytes,
    },
    /// The first bytes are not the hello that is expected.
    OtherJob {
        peer: u32,
        ours: [u8; HELLO_BYTES],
        theirs: [u8; HELLO_BYTES],
    },
    /// The reader of this peer couldn't be started.
    NoThread {
        peer: u32,
    },
}
