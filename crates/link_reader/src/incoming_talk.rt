//! What a party expects of a peer.
ghost use Rattle.std.specs.Prelude.{◌≡◌, ◌<◌, ◌^◌, length, vec_len};

use frame_code::{FrameForm, Framing};
use job_plan::Key;
use mpc_ring::Ring;
use std::marker::Model;

/// What one party expects of another: its hello, and then a frame for each of these messages.
#[derive(Drop)]
pub struct IncomingTalk {
    pub(crate) peer: u32,
    pub(crate) me: u32,
    pub(crate) digest: [u8; 32],
    pub(crate) ring: Ring,
    pub(crate) keys: Vec<Key>,
    pub(crate) form: FrameForm,
}

// To a contract it is its parts, which have room in a hello and in frames.
impl Model for IncomingTalk {
    ghost use Rattle.link_reader.specs.Expected.{TalkModel, FitsTalk};

    ghost Value = { TalkModel };

    ghost view = { λ t. record {
      peer = t.peer;
      me = t.me;
      digest = t.digest;
      bits = t.ring;
      keys = t.keys.items;
      form = t.form;
    } };

    ghost invariant = { λ t. FitsTalk (view t) };
}

impl IncomingTalk {
    ghost use Rattle.link_reader.specs.Expected.{AllFitFrames, framing_of};

    /// What party `me` expects of `peer`, in a job of this digest: each message is one from that peer to this party.
    pub fn new(
        peer: u32,
        me: u32,
        digest: [u8; 32],
        ring: Ring,
        keys: Vec<Key>,
        form: FrameForm,
    ) -> IncomingTalk
        requires parties { (peer < 256) × (me < 256) }
        requires few { vec_len keys < 2 ^ 32 }
        requires fit { AllFitFrames keys.items }
        ensures { result ≡ record {
          peer = peer;
          me = me;
          digest = digest;
          bits = ring;
          keys = keys.items;
          form = form;
        } }
    {
        ring.recall();
        IncomingTalk {
            peer,
            me,
            digest,
            ring,
            keys,
            form,
        }
    }

    /// How its messages are framed.
    pub fn framing(&self) -> Framing
        ensures { result ≡ framing_of self.now }
    {
        Framing {
            form: self.form,
            bits: self.ring.bits(),
        }
    }

    /// The party of which it is expected.
    pub fn peer(&self) -> u32
        ensures { result ≡ self.now.peer }
    {
        self.peer
    }

    /// How many messages are expected.
    pub fn messages(&self) -> u32
        ensures { result ≡ length self.now.keys }
    {
        self.keys.len() as u32
    }
}
