//! A peer's inbox, as the party sees it.
ghost use Rattle.std.specs.Prelude.{◌≡◌, ◌≢◌, ◌<◌};
ghost use Rattle.std.specs.Arc.{arc_value};
ghost use Rattle.inbox_board.specs.Rule.{notes};
ghost use Rattle.inbox_board.specs.Seats.{Looks, mark_as};

use inbox_board::{Inbox, InboxSeat};
use std::alloc::Global;
use std::marker::Model;
use std::sync::Arc;

/// The inbox of a peer, with the party's seat, which reads.
#[derive(Drop)]
pub struct Mailbox {
    inbox: Arc<Inbox, Global>,
    seat: InboxSeat,
}

impl Model for Mailbox {
    ghost use Rattle.std.specs.Prelude.{◌≡◌};
    ghost use Rattle.std.specs.Arc.{arc_value};
    ghost use Rattle.node_run.specs.Mail.{BoxModel};

    ghost Value = { BoxModel };

    ghost view = { λ b. record {
      id = (arc_value b.inbox).id;
      places = (arc_value b.inbox).places;
      view = b.seat.view;
    } };

    ghost invariant = { λ b. (b.seat.id ≡ (arc_value b.inbox).id) × (b.seat.view.pens ≡ 0)
        × (b.seat.view.length ≡ 0) × (b.seat.view.ended ≡ 0) };
}

impl Mailbox {
    ghost use Rattle.std.specs.Prelude.{◌≡◌, ◌≢◌, ◌<◌, ℕ, List};
    ghost use Rattle.std.specs.Arc.{arc_value};
    ghost use Rattle.inbox_board.specs.Rule.{newcomer, notes, ends};
    ghost use Rattle.inbox_board.specs.Folds.{pushed, GotWhatWasPushed};
    ghost use Rattle.inbox_board.specs.Seats.{Looks, mark_as};

    /// The inbox with a seat of its own that reads.
    pub fn new(inbox: Arc<Inbox, Global>, seat: InboxSeat) -> Mailbox
        requires seat { seat.id ≡ (arc_value inbox).id }
        requires reads { seat.view ≡ newcomer 0 }
        ensures { result ≡ record { id = (arc_value inbox).id; places = (arc_value inbox).places; view = seat.view } }
    {
        Mailbox { inbox, seat }
    }

    /// The word at a place, or None where it isn't there yet.
    pub fn word(&mut self, place: u32) -> Option<u64>
        requires { place < self.old.places }
        ensures same { self.new ≡ record self.old { view = self.new.view } }
        ensures looks { Looks self.old.view place result self.new.view }
    {
        self.inbox.word(&mut self.seat, place)
    }

    /// Whether the reader ended by a fault, or None where it goes on.
    pub fn mark(&mut self) -> Option<bool>
        ensures same { self.new ≡ record self.old { view = self.new.view } }
        ensures notes { self.new.view ≡ notes self.old.view self.new.view.noted }
        ensures mark { result ≡ mark_as self.new.view.noted }
        ensures known { self.old.view.noted ≢ 0 → self.new.view.noted ≡ self.old.view.noted }
    {
        self.inbox.mark(&mut self.seat)
    }

    /// Folds the reader's seat in: what the party got was pushed there.
    pub fn close(self, seat: InboxSeat)
        requires seat { seat.id ≡ self.id }
        requires writes { seat.view.pens ≡ 1 }
        ensures { (words : List ℕ) (mark : ℕ) → seat.view ≡ ends (pushed (newcomer 1) words) mark
            → GotWhatWasPushed words mark self.view }
    {
        let Mailbox { inbox, seat: own } = self;
        let _ = inbox.fold(seat, own);
    }
}
