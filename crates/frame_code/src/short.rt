//! Frames of a word alone: the first bytes of eight, so that no copy is of a length that only the run knows.
ghost use Rattle.std.specs.Prelude.{◌≡◌, ◌<◌, ◌≤◌, ◌^◌, ℕ};
ghost use Rattle.frame_code.specs.Frames.{word_bytes, short_frame, shown};

use crate::framing::{FrameBytes, all_of, word_bytes};
use crate::sizes::NAMED_BYTES;
use byteorder::{BigEndian, ByteOrder};

/// The frame of a word of a ring of so many bits.
pub fn short_frame(bits: u32, word: u64) -> FrameBytes
    requires bits { bits ≤ 64 }
    requires small { word < 2 ^ bits }
    ensures frame { shown result ≡ short_frame bits word }
    ensures count { result.count ≡ word_bytes bits }
{
    let count = word_bytes(bits);
    let mut bytes = [0; NAMED_BYTES];
    BigEndian::write_u64(&mut bytes, word << (64 - 8 * count));
    FrameBytes { bytes, count }
}

/// The word of such a frame.
pub fn short_word(bits: u32, bytes: &FrameBytes) -> u64
    requires bits { bits ≤ 64 }
    requires count { bytes.now.count ≡ word_bytes bits }
    ensures back { (word : ℕ) → word < 2 ^ bits → shown bytes.now ≡ short_frame bits word → result ≡ word }
    ensures reads { shown bytes.now ≡ short_frame bits result }
{
    BigEndian::read_u64(&all_of(bytes.bytes)) >> (64 - 8 * bytes.count)
}
