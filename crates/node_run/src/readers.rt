//! A run with its readers.
ghost use Rattle.std.specs.Prelude.{◌≡◌, ◌+◌, ◌<◌, ℕ, ◌∷◌, map, vec_len, vec_capacity};
ghost use Rattle.outer_io.specs.Inlet.{shut_inlet};
ghost use Rattle.outer_io.specs.Outlet.{shut_outlet};
ghost use Rattle.node_talk.specs.Talks.{Node};
ghost use Rattle.node_run.specs.Progress.{Begin};
ghost use Rattle.node_run.specs.Remains.{MayRun, Remained};

use crate::cells::NodeCells;
use crate::mailbox::Mailbox;
use crate::parking::Parking;
use crate::sessions::run_sessions;
use inbox_board::{Inbox, InboxSeat};
use job_plan::Plan;
use link_reader::{IncomingTalk, LinkReader, Waker};
use message_board::PlainCells;
use node_talk::NodeFault;
use outer_io::{Inlet, Outlet, Spawner};
use party_desk::Desk;
use std::alloc::Global;
use std::marker::Model;
use std::sync::{Arc, Wait};

/// A reader but for its inlet.
#[derive(Drop)]
pub struct ReaderParts {
    talk: IncomingTalk,
    inbox: Arc<Inbox, Global>,
    seat: InboxSeat,
    waker: Waker,
}

impl Model for ReaderParts {
    ghost use Rattle.std.specs.Prelude.{◌≡◌, length};
    ghost use Rattle.std.specs.Arc.{arc_value};
    ghost use Rattle.inbox_board.specs.Rule.{newcomer};
    ghost use Rattle.node_run.specs.Remains.{ReaderPartsModel};

    ghost Value = { ReaderPartsModel };

    ghost view = { λ p. record { talk = p.talk; id = (arc_value p.inbox).id; waker = p.waker } };

    ghost invariant = { λ p. (p.seat.id ≡ (arc_value p.inbox).id) × (p.seat.view ≡ newcomer 1)
        × (length p.talk.keys ≡ (arc_value p.inbox).places) };
}

impl ReaderParts {
    ghost use Rattle.std.specs.Prelude.{◌≡◌, None, length};
    ghost use Rattle.std.specs.Arc.{arc_value};
    ghost use Rattle.inbox_board.specs.Rule.{newcomer};

    /// The parts of a reader that fills this inbox, with the seat that writes there.
    pub fn new(
        talk: IncomingTalk,
        inbox: Arc<Inbox, Global>,
        seat: InboxSeat,
        waker: Waker,
    ) -> ReaderParts
        requires seat { seat.id ≡ (arc_value inbox).id }
        requires new { seat.view ≡ newcomer 1 }
        requires places { length talk.keys ≡ (arc_value inbox).places }
        ensures { result ≡ record { talk = talk; id = (arc_value inbox).id; waker = waker } }
    {
        ReaderParts {
            talk,
            inbox,
            seat,
            waker,
        }
    }

    // The peer that is to be read.
    fn peer(&self) -> u32
        ensures { result ≡ self.now.talk.peer }
    {
        self.talk.peer()
    }

    // The reader of this inlet.
    fn with<I: Inlet>(self, inlet: I) -> LinkReader<I>
        ensures inlet { result.inlet ≡ I.reading inlet }
        ensures talk { result.talk ≡ self.talk }
        ensures inbox { result.inbox.id ≡ self.id }
        ensures seat { (result.seat.id ≡ self.id) × (result.seat.view ≡ newcomer 1) }
        ensures waker { result.waker ≡ self.waker }
        ensures outcome { result.outcome ≡ None }
    {
        LinkReader::new(inlet, self.talk, self.inbox, self.seat, self.waker)
    }
}

// Closes all outlets.
fn close_outlets<O: Outlet>(outlets: &mut [O])
    ensures { map O.reading outlets.new ≡ map shut_outlet (map O.reading outlets.old) }
{
    for outlet in outlets.iter_mut() {
        outlet.close();
    }
}

/// Closes all inlets.
pub fn close_inlets<I: Inlet>(inlets: &mut [I])
    ensures { map I.reading inlets.new ≡ map shut_inlet (map I.reading inlets.old) }
{
    for inlet in inlets.iter_mut() {
        inlet.close();
    }
}

/// What a run leaves.
#[derive(Drop)]
pub struct Remains<O: Outlet> {
    pub outlets: Vec<O>,
    pub words: PlainCells,
    pub boxes: Vec<Mailbox>,
    pub desks: Vec<Desk>,
    pub failed: Option<u32>,
    pub refused: Option<u32>,
    pub fault: Option<NodeFault>,
}

/// What has remains of a run.
pub trait Leaves {
    ghost use Rattle.node_run.specs.Remains.{RemainsModel};

    /// What is left.
    ghost left: { Self → RemainsModel };
}

impl<O: Outlet> Leaves for Remains<O> {
    ghost use Rattle.std.specs.Prelude.{map};

    ghost left = { λ r. record {
      outlets = map O.reading r.outlets.items;
      words = r.words;
      boxes = r.boxes.items;
      desks = r.desks.items;
      failed = r.failed;
      refused = r.refused;
      fault = r.fault;
    } };
}

impl<O: Outlet> Remains<O> {
    ghost use Rattle.std.specs.Prelude.{◌≡◌, ◌-◌, length, map, take, None};
    ghost use Rattle.outer_io.specs.Outlet.{shut_outlet};
    ghost use Rattle.node_run.specs.Mail.{IsMail};

    /// What these cells and desks leave, but for as many of the last inboxes as have no reader yet. The outlets are
    /// closed, so that no peer waits for more.
    pub fn of<'p>(
        cells: NodeCells<'p, O>,
        desks: Vec<Desk>,
        waiting: usize,
        refused: Option<u32>,
    ) -> Remains<O>
        ensures left { ⟦<Remains<O> as Leaves>⟧.left result ≡ record {
          outlets = map shut_outlet cells.entry.outlets;
          words = cells.entry.words;
          boxes = take (length cells.entry.boxes - waiting) cells.entry.boxes;
          desks = desks.items;
          failed = cells.entry.failed;
          refused = refused;
          fault = None;
        } }
        ensures mail { IsMail cells.entry }
    {
        let NodeCells {
            mut outlets,
            words,
            mut boxes,
            failed,
            ..
        } = cells;
        close_outlets(outlets.as_mut_slice());
        boxes.truncate(boxes.len().saturating_sub(waiting));
        Remains {
            outlets,
            words,
            boxes,
            desks,
            failed,
            refused,
            fault: None,
        }
    }
}

impl<O: Outlet> Remains<O> {
    ghost use Rattle.std.specs.Prelude.{◌≡◌, ◌<◌, ◌-◌, ℕ, List, length, take, slice_index_or, Option, Some, Ok, Err};
    ghost use Rattle.inbox_board.specs.Rule.{newcomer, ends};
    ghost use Rattle.inbox_board.specs.Folds.{pushed, GotWhatWasPushed};
    ghost use Rattle.node_run.specs.Mail.{no_box};
    ghost use Rattle.node_run.specs.Remains.{after_outcome};

    // Folds the seat of the last peer's reader into its inbox, and keeps the fault of the reader.
    fn close(&mut self, seat: InboxSeat, outcome: Option<Result<(), NodeFault>>)
        requires some { 0 < length self.old.boxes.items }
        requires seat { seat.id ≡ (slice_index_or self.old.boxes.items (length self.old.boxes.items - 1) no_box).id }
        requires writes { seat.view.pens ≡ 1 }
        ensures rest { ⟦<Remains<O> as Leaves>⟧.left self.new ≡ record (⟦<Remains<O> as Leaves>⟧.left self.old) {
          boxes = take (length self.old.boxes.items - 1) self.old.boxes.items;
          fault = after_outcome outcome self.old.fault;
        } }
        ensures got { (words : List ℕ) (mark : ℕ) → seat.view ≡ ends (pushed (newcomer 1) words) mark
            → GotWhatWasPushed words mark
            (slice_index_or self.old.boxes.items (length self.old.boxes.items - 1) no_box).view }
    {
        let Some(mailbox) = self.boxes.pop() else {
            unreachable!()
        };
        mailbox.close(seat);
        if let Some(Err(fault)) = outcome {
            self.fault = Some(fault);
        }
    }
}

// Puts an inlet before the others, for which there is room.
fn put_first<I: Inlet + Drop>(inlets: &mut Vec<I>, inlet: I)
    requires { vec_len inlets.old < vec_capacity inlets.old }
    ensures items { inlets.new.items ≡ inlet ∷ inlets.old.items }
    ensures len { vec_len inlets.new ≡ vec_len inlets.old + 1 }
    ensures capacity { vec_capacity inlets.new ≡ vec_capacity inlets.old }
{
    let Ok(()) = inlets.insert(0, inlet) else {
        unreachable!()
    };
}

/// Starts the readers of all inlets in order, runs the sessions, and finishes the readers. A start that is refused ends
/// the run before its sessions. All inlets are closed then.
pub fn read_peers<'p, I: Inlet + Drop, O: Outlet, W: Spawner<LinkReader<I>>, R: Wait>(
    rt: &R,
    plan: &Plan,
    spawner: &mut W,
    inlets: &mut Vec<I>,
    mut readers: Vec<ReaderParts>,
    mut cells: NodeCells<'p, O>,
    mut desks: Vec<Desk>,
    parking: &Parking,
) -> Remains<O>
    requires same { vec_len readers ≡ vec_len inlets.old }
    requires run { (n : Node) × (start : Begin) × (place : ℕ) × (n.world.plan ≡ plan.now)
        × MayRun n start place readers.items desks.items cells }
    ensures remained { (n : Node) (start : Begin) (place : ℕ) → n.world.plan ≡ plan.now
        → MayRun n start place readers.items desks.items cells.entry
        → Remained n start place (map I.reading inlets.old.items) (map I.reading inlets.new.items)
        (W.reading spawner.old) (W.reading spawner.new)
        (⟦<Remains<O> as Leaves>⟧.left result) }
    ensures len { vec_len inlets.new ≡ vec_len inlets.old }
    ensures capacity { vec_capacity inlets.new ≡ vec_capacity inlets.old }
{
    if readers.is_empty() {
        run_sessions(rt, plan, desks.as_mut_slice(), &mut cells, parking);
        return Remains::of(cells, desks, 0, None);
    }
    let waiting = readers.len();
    let parts = readers.remove(0);
    let peer = parts.peer();
    let reader = parts.with(inlets.remove(0));
    match spawner.start(reader) {
        Err(back) => {
            let (inlet, _, _) = back.into_parts();
            put_first(inlets, inlet);
            close_inlets(inlets.as_mut_slice());
            Remains::of(cells, desks, waiting, Some(peer))
        }
        Ok(started) => {
            let mut remains = read_peers(rt, plan, spawner, inlets, readers, cells, desks, parking);
            let (inlet, seat, outcome) = spawner.finish(started).into_parts();
            put_first(inlets, inlet);
            remains.close(seat, outcome);
            remains
        }
    }
}
