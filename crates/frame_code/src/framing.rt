//! The form of frames, and the bytes of one.
ghost use Rattle.std.specs.Prelude.{◌≡◌, ◌<◌, ◌≤◌, ℕ, length, slice_index};
ghost use Rattle.frame_code.specs.Frames.{word_bytes};

use crate::sizes::NAMED_BYTES;

/// What a frame has of its message.
#[derive(Clone, Copy, Debug, PartialEq, Eq)]
pub enum FrameForm {
    /// Its name and its word.
    Named,
    /// Its word alone: which message comes next both ends know.
    Short,
}

/// The form of a job's frames, and the bits of its ring.
#[derive(Clone, Copy, Debug, PartialEq, Eq)]
pub struct Framing {
    pub form: FrameForm,
    pub bits: u32,
}

/// The bytes of a frame: the first `count` of these.
#[derive(Clone, Copy, Debug, PartialEq, Eq)]
pub struct FrameBytes {
    pub bytes: [u8; NAMED_BYTES],
    pub count: usize,
}

impl Framing {
    ghost use Rattle.std.specs.Prelude.{◌≡◌, ◌≤◌};
    ghost use Rattle.frame_code.specs.Frames.{frame_bytes};

    /// How many bytes each frame has.
    #[tactic(auto, unfolding(crate::specs::Frames::frame_bytes))]
    pub fn frame_bytes(self) -> usize
        requires { self.bits ≤ 64 }
        ensures bytes { result ≡ frame_bytes self }
        ensures some { 1 ≤ result }
        ensures most { result ≤ 18 }
    {
        match self.form {
            FrameForm::Named => NAMED_BYTES,
            FrameForm::Short => word_bytes(self.bits),
        }
    }
}

/// In how many bytes a word of a ring of so many bits goes.
pub fn word_bytes(bits: u32) -> usize
    requires { bits ≤ 64 }
    ensures bytes { result ≡ word_bytes bits }
    ensures some { 1 ≤ result }
    ensures most { result ≤ 8 }
{
    bits.saturating_sub(1) as usize / 8 + 1
}

impl FrameBytes {
    ghost use Rattle.std.specs.Prelude.{◌≡◌};
    ghost use Rattle.frame_code.specs.Frames.{shown};

    /// The bytes.
    pub fn as_slice(&self) -> &[u8]
        ensures { result.now ≡ shown self.now }
    {
        if self.count < NAMED_BYTES {
            &self.bytes[..self.count]
        } else {
            &self.bytes
        }
    }
}

// All of these bytes.
pub fn all_of(bytes: [u8; NAMED_BYTES]) -> [u8; NAMED_BYTES]
    ensures is { result ≡ bytes }
    ensures long { length bytes ≡ 18 }
    ensures small { (i : ℕ) → slice_index bytes i < 256 }
{
    bytes
}
