//! Frames that name their message.
ghost use Rattle.std.specs.Prelude.{◌≡◌, ◌≢◌, ◌↔◌, ◌<◌, ◌^◌, ℕ, IfSome, IsNone, Some, slice_index};
ghost use Rattle.plan_model.specs.declared.key.Key.{Key as Message};
ghost use Rattle.frame_code.specs.Frames.{named_frame, FitsFrame};

use crate::sizes::NAMED_BYTES;
use byteorder::{BigEndian, ByteOrder};
use plan_model::Key;

/// The frame that names a message and has its word.
pub fn named_frame(key: &Key, word: u64) -> [u8; NAMED_BYTES]
    requires { FitsFrame key.now }
    ensures { result ≡ named_frame key.now word }
{
    let mut bytes = [0; NAMED_BYTES];
    bytes[0] = 1;
    BigEndian::write_u16(&mut bytes[1..], key.session as u16);
    BigEndian::write_u32(&mut bytes[3..], key.slot);
    bytes[7] = key.share as u8;
    bytes[8] = key.sender as u8;
    bytes[9] = key.receiver as u8;
    BigEndian::write_u64(&mut bytes[10..], word);
    bytes
}

/// The message and the word of such a frame, None exactly where the first byte is not 1.
pub fn read_frame(bytes: &[u8; NAMED_BYTES]) -> Option<(Key, u64)>
    ensures none { IsNone result ↔ (slice_index bytes.now 0 ≢ 1) }
    ensures back { (key : Message) (word : ℕ) → FitsFrame key → word < 2 ^ 64 → bytes.now ≡ named_frame key word
        → result ≡ Some (key, word) }
    ensures reads { IfSome result (λ read. bytes.now ≡ named_frame read.0 read.1) }
    ensures fits { IfSome result (λ read. FitsFrame read.0) }
    ensures word { IfSome result (λ read. read.1 < 2 ^ 64) }
{
    if bytes[0] != 1 {
        return None;
    }
    let key = Key {
        session: u32::from(u16::from_be_bytes([bytes[1], bytes[2]])),
        slot: u32::from_be_bytes([bytes[3], bytes[4], bytes[5], bytes[6]]),
        share: u32::from(bytes[7]),
        sender: u32::from(bytes[8]),
        receiver: u32::from(bytes[9]),
    };
    let word = u64::from_be_bytes([
        bytes[10], bytes[11], bytes[12], bytes[13], bytes[14], bytes[15], bytes[16], bytes[17],
    ]);
    Some((key, word))
}

/// The word of the frame that names this message, None where the bytes are no such frame.
pub fn named_word(key: &Key, bytes: &[u8; NAMED_BYTES]) -> Option<u64>
    requires { FitsFrame key.now }
    ensures back { (word : ℕ) → word < 2 ^ 64 → bytes.now ≡ named_frame key.now word → result ≡ Some word }
    ensures reads { IfSome result (λ word. bytes.now ≡ named_frame key.now word) }
{
    let (found, word) = read_frame(bytes)?;
    if found == *key { Some(word) } else { None }
}
