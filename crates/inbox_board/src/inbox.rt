//! An inbox on a table of its own. A push is a store of a value and then one of the count, and a look for a word is a
//! load of the count and, where that is past the place, one of the value. No step waits for another thread.
ghost use Rattle.std.specs.Prelude.{◌≡◌, ◌≢◌, ℕ, ◌+◌, ◌<◌, ◌≤◌, Some, IfOk};
ghost use Rattle.inbox_board.specs.Seats.{mark_of, mark_as};

use crate::steps::{
    Compares, Ends, FindsCount, Gets, InboxRule, InboxView, Notes, SplitReaders, StoresCount,
    StoresWord,
};
use atomic_table::{Seat, Table};
use std::alloc::{AllocError, Global};
use std::marker::Model;

/// Places that one writer fills in order, and a mark at its end, which any thread may look at.
#[derive(Drop)]
pub struct Inbox {
    table: Table<(), InboxView, u32, InboxRule, Global>,
}

// To a contract an inbox is which table it is, and how many places it has.
impl Model for Inbox {
    ghost use Rattle.std.specs.Prelude.{◌≡◌, ◌+◌, ◌<◌, ◌^◌};
    ghost use Rattle.inbox_board.specs.Seats.{InboxModel};

    ghost Value = { InboxModel };

    ghost view = { λ b. record { id = b.table.shared.table_id; places = b.table.shared.key } };

    ghost invariant = { λ b. (b.table.shared.table_id.words ≡ b.table.shared.key + 3) × (b.table.shared.key < 2 ^ 32) };
}

/// What one thread uses an inbox with, as its writer or as a reader. It knows what it pushed, got and found.
#[derive(Drop)]
pub struct InboxSeat {
    seat: Seat<(), InboxView>,
    length: u32,
}

// To a contract a seat is which table it is of, and what it knows.
impl Model for InboxSeat {
    ghost use Rattle.std.specs.Prelude.{◌≡◌, []};
    ghost use Rattle.inbox_board.specs.Seats.{SeatModel, IsAtRest};

    ghost Value = { SeatModel };

    ghost view = { λ s. record { id = s.seat.table_id; view = s.seat.me.0 } };

    ghost invariant = { λ s. (s.seat.me.1 ≡ []) × IsAtRest s.length s.seat.me.0 };
}

// The number that stands for an end, by a fault or not.
fn mark_number(fault: bool) -> u64
    ensures { result ≡ mark_of fault }
{
    if fault { 2 } else { 1 }
}

// The end that a mark stands for.
fn mark_found(found: u64) -> Option<bool>
    ensures { result ≡ mark_as found }
{
    if found == 0 { None } else { Some(found == 2) }
}

impl Inbox {
    ghost use Rattle.message_board.specs.Pairs.{Knows};
    ghost use Rattle.inbox_board.specs.Rule.{newcomer, pushes, ends, notes, folds, FitsTogether};
    ghost use Rattle.inbox_board.specs.Seats.{MayWrite, Looks};

    /// An inbox of `places` empty places, with the seat that writes and one that reads.
    pub fn make(alloc: Global, places: u32) -> Result<(Inbox, InboxSeat, InboxSeat), AllocError>
        ensures places { IfOk result (λ r. r.0.places ≡ places) }
        ensures seats { IfOk result (λ r. (r.1.id ≡ r.0.id) × (r.2.id ≡ r.0.id)) }
        ensures writer { IfOk result (λ r. r.1.view ≡ newcomer 1) }
        ensures reader { IfOk result (λ r. r.2.view ≡ newcomer 0) }
    {
        let start = vec![in alloc; 0u64; places as usize + 3]?;
        let (table, seat) = Table::of_words(alloc, start.as_slice(), &places)?;
        let inbox = Inbox { table };
        let mut writer = InboxSeat { seat, length: 0 };
        let reader = inbox.another(&mut writer);
        Ok((inbox, writer, reader))
    }

    // Another seat, which reads.
    fn another(&self, seat: &mut InboxSeat) -> InboxSeat
        requires { seat.old.id ≡ self.now.id }
        ensures seat { seat.new ≡ seat.old }
        ensures other { (result.id ≡ self.now.id) × (result.view ≡ newcomer 0) }
    {
        InboxSeat {
            seat: self.table.shared.split_seat::<SplitReaders>(&mut seat.seat),
            length: 0,
        }
    }

    /// Fills the next place.
    pub fn push(&self, seat: &mut InboxSeat, word: u64)
        requires seat { seat.old.id ≡ self.now.id }
        requires writes { MayWrite seat.old }
        requires free { seat.old.view.length < self.now.places }
        ensures seat { seat.new.id ≡ self.now.id }
        ensures view { seat.new.view ≡ pushes seat.old.view word }
    {
        let place = seat.length;
        self.table
            .shared
            .store::<StoresWord>(&mut seat.seat, place as usize + 3, word);
        self.table
            .shared
            .store::<StoresCount>(&mut seat.seat, 1, u64::from(place) + 1);
        seat.length = place + 1;
    }

    /// Leaves the mark of the end, by a fault or not. Nothing is pushed after it.
    pub fn end(&self, seat: &mut InboxSeat, fault: bool)
        requires seat { seat.old.id ≡ self.now.id }
        requires writes { MayWrite seat.old }
        ensures seat { seat.new.id ≡ self.now.id }
        ensures view { seat.new.view ≡ ends seat.old.view (mark_of fault) }
    {
        let mark = mark_number(fault);
        self.table.shared.store::<Ends>(&mut seat.seat, 2, mark);
    }

    /// The word at a place, or None where the count isn't past the place. A word that the seat knew is found again.
    pub fn word(&self, seat: &mut InboxSeat, place: u32) -> Option<u64>
        requires seat { seat.old.id ≡ self.now.id }
        requires inside { place < self.now.places }
        ensures seat { seat.new.id ≡ self.now.id }
        ensures looks { Looks seat.old.view place result seat.new.view }
        ensures known { (w : ℕ) → Knows seat.old.view.seen place w → result ≡ Some w }
    {
        let found = self.table.shared.load::<FindsCount>(&mut seat.seat, 1);
        if found <= u64::from(place) {
            return None;
        }
        let word = self
            .table
            .shared
            .load::<Gets>(&mut seat.seat, place as usize + 3);
        Some(word)
    }

    /// Whether the writer ended by a fault, or None where it hasn't ended. A mark that the seat knew is found again.
    pub fn mark(&self, seat: &mut InboxSeat) -> Option<bool>
        requires seat { seat.old.id ≡ self.now.id }
        ensures seat { seat.new.id ≡ self.now.id }
        ensures view { seat.new.view ≡ notes seat.old.view seat.new.view.noted }
        ensures mark { result ≡ mark_as seat.new.view.noted }
        ensures known { seat.old.view.noted ≢ 0 → seat.new.view.noted ≡ seat.old.view.noted }
    {
        let found = self.table.shared.load::<Notes>(&mut seat.seat, 2);
        mark_found(found)
    }

    /// One seat that knows what both knew, of which at most one writes. A word that one got is the one that the other
    /// pushed at its place, and a mark that one found is the one that the other gave.
    pub fn fold(&self, mut seat: InboxSeat, other: InboxSeat) -> InboxSeat
        requires seat { seat.id ≡ self.now.id }
        requires other { other.id ≡ self.now.id }
        requires pen { seat.view.pens + other.view.pens ≤ 1 }
        ensures seat { result.id ≡ self.now.id }
        ensures view { result.view ≡ folds seat.view other.view }
        ensures agrees { FitsTogether result.view }
    {
        let InboxSeat {
            seat: spent,
            length,
        } = other;
        self.table
            .shared
            .join_seat::<SplitReaders>(&mut seat.seat, spent);
        self.table.shared.load::<Compares>(&mut seat.seat, 0);
        seat.length += length;
        seat
    }
}
