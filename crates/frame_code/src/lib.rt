//! What two parties say to one another over a pipe, in bytes: a hello, and then a frame for each message.
#![tactic(auto)]

mod framing;
mod named;
mod short;
mod sizes;

ghost use Rattle.std.specs.Prelude.{◌≡◌, ◌<◌, ◌≤◌, ◌^◌, ℕ, List, length, IfSome, Some};
ghost use Rattle.plan_model.specs.declared.key.Key.{Key as Message};
ghost use Rattle.frame_code.specs.declared.framing.Framing.{Framing as FramingModel};
ghost use Rattle.frame_code.specs.Frames.{hello, frame, named_frame, frame_bytes, shown, FitsFrame};

use framing::all_of;
pub use framing::{FrameBytes, FrameForm, Framing};
use named::named_frame;
pub use named::{named_word, read_frame};
use plan_model::Key;
use short::{short_frame, short_word};
pub use sizes::{HELLO_BYTES, NAMED_BYTES};

const MAGIC: [u8; 4] = *b"MPC1";

/// The begin of what party `from` says to party `to`, in a job with this digest.
pub fn hello(from: u32, to: u32, digest: &[u8; 32]) -> [u8; HELLO_BYTES]
    requires from { from < 256 }
    requires to { to < 256 }
    ensures { result ≡ hello from to digest.now }
{
    let mut bytes = [0; HELLO_BYTES];
    bytes[..4].copy_from_slice(&MAGIC);
    bytes[4] = from as u8;
    bytes[5] = to as u8;
    bytes[6..].copy_from_slice(digest);
    bytes
}

/// The frame of a message and its word.
pub fn frame(framing: Framing, key: &Key, word: u64) -> FrameBytes
    requires fits { FitsFrame key.now }
    requires bits { framing.bits ≤ 64 }
    requires small { word < 2 ^ framing.bits }
    ensures frame { shown result ≡ frame framing key.now word }
    ensures count { result.count ≡ frame_bytes framing }
{
    match framing.form {
        FrameForm::Named => FrameBytes {
            bytes: named_frame(key, word),
            count: NAMED_BYTES,
        },
        FrameForm::Short => short_frame(framing.bits, word),
    }
}

/// The word of the frame of this message, None where the bytes are not its frame.
pub fn frame_word(framing: Framing, key: &Key, bytes: &FrameBytes) -> Option<u64>
    requires fits { FitsFrame key.now }
    requires bits { framing.bits ≤ 64 }
    requires count { bytes.now.count ≡ frame_bytes framing }
    ensures back { (word : ℕ) → word < 2 ^ framing.bits → shown bytes.now ≡ frame framing key.now word
        → result ≡ Some word }
    ensures reads { IfSome result (λ word. shown bytes.now ≡ frame framing key.now word) }
{
    match framing.form {
        FrameForm::Named => named_word(key, &all_of(bytes.bytes)),
        FrameForm::Short => Some(short_word(framing.bits, bytes)),
    }
}

/// Different parties, or digests of different jobs, have different hellos.
pub fn each_hello_is_of_one_meeting()
    ensures { (p q r s : ℕ) (c d : List ℕ) → hello p q c ≡ hello r s d → (p ≡ r) × (q ≡ s) × (c ≡ d) }
{}

/// Each frame has so many bytes, and different words have different frames.
pub fn each_frame_has_one_word()
    ensures long { (f : FramingModel) (key : Message) (word : ℕ) → length (frame f key word) ≡ frame_bytes f }
    ensures word { (f : FramingModel) (key : Message) (v w : ℕ) → f.bits ≤ 64 → v < 2 ^ f.bits → w < 2 ^ f.bits
        → frame f key v ≡ frame f key w → v ≡ w }
{}

/// Different messages and words have different frames that name them.
pub fn each_frame_is_of_one_message()
    ensures { (k l : Message) (v w : ℕ) → FitsFrame k → FitsFrame l → v < 2 ^ 64 → w < 2 ^ 64
        → named_frame k v ≡ named_frame l w → (k ≡ l) × (v ≡ w) }
{}
