//! The cells of a node: a post keeps its word, and sends it to a peer in a frame. A take gives the word that is kept,
//! or looks into the sender's inbox. What a party posts to itself stays in its cells.
ghost use Rattle.std.specs.Prelude.{◌≡◌, ◌≢◌, ◌<◌};
ghost use Rattle.node_talk.specs.PeerLinks.{place_among};
ghost use Rattle.node_run.specs.Mail.{SentTo};

use crate::last_slot::LastSlot;
use crate::mailbox::Mailbox;
use frame_code::{FrameForm, Framing, frame};
use job_plan::Plan;
use message_board::{Cells, PlainCells, Posted};
use outer_io::Outlet;
use std::marker::Model;

/// What a node keeps while it runs its sessions.
#[derive(Drop)]
pub struct NodeCells<'p, O: Outlet> {
    pub plan: &'p Plan,
    pub me: u32,
    pub form: FrameForm,
    pub outlets: Vec<O>,
    pub words: PlainCells,
    pub boxes: Vec<Mailbox>,
    pub places: Vec<u32>,
    pub slot: LastSlot,
    pub failed: Option<u32>,
}

impl<'p, O: Outlet> Model for NodeCells<'p, O> {
    ghost use Rattle.std.specs.Prelude.{map};
    ghost use Rattle.node_run.specs.Mail.{Mail, IsMail};

    ghost Value = { Mail };

    ghost view = { λ c. record {
      plan = c.plan.now;
      me = c.me;
      form = c.form;
      outlets = map O.reading c.outlets.items;
      words = c.words;
      boxes = c.boxes.items;
      places = c.places.items;
      failed = c.failed;
    } };

    ghost invariant = { λ c. IsMail (record {
      plan = c.plan.now;
      me = c.me;
      form = c.form;
      outlets = map O.reading c.outlets.items;
      words = c.words;
      boxes = c.boxes.items;
      places = c.places.items;
      failed = c.failed;
    }) };
}

/// Where a party stands among the peers of another.
pub fn peer_place(me: u32, party: u32) -> usize
    requires { party ≢ me }
    ensures { result ≡ place_among me party }
{
    if party < me {
        party as usize
    } else {
        party as usize - 1
    }
}

impl<'p, O: Outlet> NodeCells<'p, O> {
    ghost use Rattle.std.specs.Prelude.{◌≡◌, ◌≢◌, ◌<◌};
    ghost use Rattle.node_run.specs.Mail.{SentTo, FlushedTo};

    /// Sends these bytes to a peer, and keeps it where that failed.
    pub fn send(&mut self, peer: u32, bytes: &[u8])
        requires party { peer < self.old.plan.parties }
        requires other { peer ≢ self.old.me }
        ensures { SentTo peer bytes.now self.old self.new }
    {
        let place = peer_place(self.me, peer);
        if self.outlets[place].send(bytes).is_err() {
            self.failed = Some(peer);
        }
    }

    /// Sends what waits for a peer, and keeps the peer where that failed.
    pub fn flush(&mut self, peer: u32)
        requires party { peer < self.old.plan.parties }
        requires other { peer ≢ self.old.me }
        ensures { FlushedTo peer self.old self.new }
    {
        let place = peer_place(self.me, peer);
        if self.outlets[place].flush().is_err() {
            self.failed = Some(peer);
        }
    }
}

impl<'p, O: Outlet> NodeCells<'p, O> {
    ghost use Rattle.node_run.specs.Mail.{ComesFromPeer, Looked, LookedAtMark};

    /// The word of this message of a peer in its sender's inbox, or None where it isn't there yet.
    pub fn look(&mut self, number: u32) -> Option<u64>
        requires { ComesFromPeer self.old number }
        ensures { Looked self.old number result self.new }
    {
        let sender = self.slot.message(self.plan, number).sender;
        let place = self.places[number as usize];
        self.boxes[peer_place(self.me, sender)].word(place)
    }

    /// Whether the reader of this message's sender ended by a fault, or None where it goes on.
    pub fn mark(&mut self, number: u32) -> Option<bool>
        requires { ComesFromPeer self.old number }
        ensures { LookedAtMark self.old number result self.new }
    {
        let sender = self.slot.message(self.plan, number).sender;
        self.boxes[peer_place(self.me, sender)].mark()
    }
}

impl<'p, O: Outlet> Cells for NodeCells<'p, O> {
    ghost use Rattle.std.specs.Prelude.{◌≡◌, Some};
    ghost use Rattle.message_board.specs.Plain.{plain_cell};
    ghost use Rattle.message_board.specs.declared.cells.Posted.TheVariants.{Done};
    ghost use Rattle.node_run.specs.Mail.{MayPost, MayTake, Posts, TakesWord};

    ghost may_post = { MayPost };

    ghost may_take = { MayTake };

    ghost got = { λ c n w. plain_cell c.words.cells n ≡ Some w };

    ghost put = { λ c n w a d. (a ≡ Done) × Posts c n w d };

    ghost took = { TakesWord };

    ghost below = { λ c k. c.plan.bits ≡ k };

    fn post(&mut self, number: u32, word: u64) -> Posted {
        let _ = self.words.post(number, word);
        let key = self.slot.message(self.plan, number);
        if key.receiver != self.me {
            let framing = Framing {
                form: self.form,
                bits: self.plan.ring().bits(),
            };
            let bytes = frame(framing, &key, word);
            self.send(key.receiver, bytes.as_slice());
        }
        Posted::Done
    }

    fn take(&mut self, number: u32) -> Option<u64> {
        if let Some(word) = self.words.cell(number) {
            return Some(word);
        }
        let reduced = match self.look(number) {
            Some(found) => self.plan.ring().reduce(found),
            None => return None,
        };
        let _ = self.words.post(number, reduced);
        Some(reduced)
    }
}
