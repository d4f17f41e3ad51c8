//! What is heard of a peer: its hello, and one frame after another.
ghost use Rattle.std.specs.Prelude.{◌≡◌, ◌<◌, ◌≤◌, ◌+◌, ◌*◌, ◌^◌, length};
ghost use Rattle.outer_io.specs.Inlet.{Fills};
ghost use Rattle.frame_code.specs.Frames.{FitsFrame, frame_bytes, shown};
ghost use Rattle.node_talk.specs.Causes.{IsWordOf};
ghost use Rattle.link_reader.specs.Heard.{Hears, Meets, StaysSteady};

use crate::incoming_talk::IncomingTalk;
use frame_code::{FrameBytes, Framing, HELLO_BYTES, NAMED_BYTES, frame_word, hello};
use job_plan::Key;
use mpc_ring::Ring;
use node_talk::NodeFault;
use outer_io::{Filled, Inlet, fill};

// Reads the hello.
pub fn meet<I: Inlet>(inlet: &mut I, talk: &IncomingTalk) -> Result<(), NodeFault>
    ensures meets { Meets talk.now (I.reading inlet.old) (I.reading inlet.new) result }
    ensures steady { StaysSteady (I.reading inlet.old) (I.reading inlet.new) }
{
    let peer = talk.peer;
    let ours = hello(peer, talk.me, &talk.digest);
    let mut theirs = [0; HELLO_BYTES];
    match fill(inlet, &mut theirs) {
        Filled::Full => (),
        Filled::Short(count) => {
            let at = count as u64;
            return Err(NodeFault::Closed { peer, at });
        }
        Filled::Faulty => return Err(NodeFault::Link { peer }),
    }
    if theirs != ours {
        return Err(NodeFault::OtherJob { peer, ours, theirs });
    }
    Ok(())
}

// Fills the place of a frame.
fn fill_frame<I: Inlet>(inlet: &mut I, frame: &mut FrameBytes) -> Filled
    requires { frame.old.count ≤ 18 }
    ensures fills { Fills (shown frame.new) (I.reading inlet.old) (I.reading inlet.new) result }
    ensures count { frame.new.count ≡ frame.old.count }
    ensures long { length (shown frame.new) ≡ frame.old.count }
{
    let count = frame.count;
    fill(inlet, &mut frame.bytes[..count])
}

// Where the frame at a place begins, if each has so many bytes.
fn begin_of(bytes: usize, place: usize) -> u64
    requires bytes { bytes ≤ 18 }
    requires place { place < 2 ^ 32 }
    ensures begin { result ≡ 38 + bytes * place }
    ensures small { result < 2 ^ 40 }
{
    HELLO_BYTES as u64 + bytes as u64 * place as u64
}

// Reads the frame at a place, whose word it gives.
pub fn hear<I: Inlet>(inlet: &mut I, talk: &IncomingTalk, place: usize) -> Result<u64, NodeFault>
    requires place { place < length talk.now.keys }
    ensures hears { Hears talk.now place (I.reading inlet.old) (I.reading inlet.new) result }
    ensures steady { StaysSteady (I.reading inlet.old) (I.reading inlet.new) }
{
    let peer = talk.peer;
    let framing = talk.framing();
    let wanted = framing.frame_bytes();
    let at = begin_of(wanted, place);
    let mut bytes = FrameBytes {
        bytes: [0; NAMED_BYTES],
        count: wanted,
    };
    match fill_frame(inlet, &mut bytes) {
        Filled::Full => (),
        Filled::Short(count) => {
            let at = at + count as u64;
            return Err(NodeFault::Closed { peer, at });
        }
        Filled::Faulty => return Err(NodeFault::Link { peer }),
    }
    match word_of(&bytes, framing, talk.ring, talk.keys[place]) {
        Some(word) => Ok(word),
        None => Err(NodeFault::BadFrame { peer, at, bytes }),
    }
}

// The word of a frame of this message, if it is one with a word of the ring.
fn word_of(bytes: &FrameBytes, framing: Framing, ring: Ring, key: Key) -> Option<u64>
    requires key { FitsFrame key }
    requires count { bytes.now.count ≡ frame_bytes framing }
    requires bits { framing.bits ≡ ring }
    requires ring { ring ≤ 64 }
    ensures { IsWordOf (shown bytes.now) framing key result }
{
    let word = frame_word(framing, &key, bytes)?;
    if ring.fits(word) { Some(word) } else { None }
}
