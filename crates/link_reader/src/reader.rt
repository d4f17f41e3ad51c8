//! The task of one peer.
ghost use Rattle.std.specs.Prelude.{◌≡◌, None, length};
ghost use Rattle.std.specs.Arc.{arc_value};
ghost use Rattle.inbox_board.specs.Rule.{newcomer};

use crate::incoming_talk::IncomingTalk;
use crate::read_words::read_all;
use crate::waker::Waker;
use inbox_board::{Inbox, InboxSeat};
use node_talk::NodeFault;
use outer_io::{Inlet, Task};
use std::alloc::Global;
use std::marker::Model;
use std::sync::Arc;

/// The reading of one peer into an inbox that has a place for each message from it. The party is woken at each word
/// that came, and at the end, where the inlet is closed.
#[derive(Drop)]
pub struct LinkReader<I: Inlet> {
    inlet: I,
    talk: IncomingTalk,
    inbox: Arc<Inbox, Global>,
    seat: InboxSeat,
    waker: Waker,
    outcome: Option<Result<(), NodeFault>>,
}

impl<I: Inlet> Model for LinkReader<I> {
    ghost use Rattle.std.specs.Arc.{arc_value};
    ghost use Rattle.link_reader.specs.ReadWords.{ReaderModel, CanWork};

    ghost Value = { ReaderModel };

    ghost view = { λ r. record {
      inlet = I.reading r.inlet;
      talk = r.talk;
      inbox = arc_value r.inbox;
      seat = r.seat;
      waker = r.waker;
      outcome = r.outcome;
    } };

    ghost invariant = { λ r. CanWork (view r) };
}

impl<I: Inlet> LinkReader<I> {
    /// A reader that has done nothing yet, with the seat that writes.
    pub fn new(
        inlet: I,
        talk: IncomingTalk,
        inbox: Arc<Inbox, Global>,
        seat: InboxSeat,
        waker: Waker,
    ) -> LinkReader<I>
        requires seat { seat.id ≡ (arc_value inbox).id }
        requires new { seat.view ≡ newcomer 1 }
        requires places { length talk.keys ≡ (arc_value inbox).places }
        ensures { result ≡ record {
          inlet = I.reading inlet;
          talk = talk;
          inbox = arc_value inbox;
          seat = seat;
          waker = waker;
          outcome = None;
        } }
    {
        LinkReader {
            inlet,
            talk,
            inbox,
            seat,
            waker,
            outcome: None,
        }
    }

    /// Its inlet, its seat, and how its work ended, None where it did none.
    pub fn into_parts(self) -> (I, InboxSeat, Option<Result<(), NodeFault>>)
        ensures inlet { I.reading result.0 ≡ self.inlet }
        ensures seat { result.1 ≡ self.seat }
        ensures outcome { result.2 ≡ self.outcome }
    {
        (self.inlet, self.seat, self.outcome)
    }
}

impl<I: Inlet> Task for LinkReader<I> {
    ghost use Rattle.link_reader.specs.ReadWords.{Works};

    ghost worked = { Works };

    fn work(&mut self) {
        if self.outcome.is_some() {
            return;
        }
        let outcome = read_all(
            &mut self.inlet,
            &self.talk,
            &self.inbox,
            &mut self.seat,
            &mut self.waker,
        );
        self.inbox.end(&mut self.seat, outcome.is_err());
        self.waker.wake();
        self.inlet.close();
        self.outcome = Some(outcome);
    }
}
