//! A board whose slots all have their items at the start.
ghost use Rattle.std.specs.Prelude.{◌≡◌, ◌<◌, ◌^◌, ◌∷◌, length, IfSome, IfNone, IfOk, IfErr, vec_len};

use message_board::{Board, BoardSeat, Promise, SlotItem};
use std::alloc::{AllocError, Global};
use std::marker::Model;

/// A board with slots, whose items go from seat to seat. Each has one holder at a time.
#[derive(Drop)]
pub struct Rack<W: Promise, T: SlotItem<W>> {
    board: Board<W, T>,
}

// To a contract a rack is its board.
impl<W: Promise, T: SlotItem<W>> Model for Rack<W, T> {
    ghost use Rattle.message_board.specs.Seats.{BoardModel, board_coded};

    ghost Value = { BoardModel W };

    ghost coded = { board_coded W.code };

    ghost view = { λ r. r.board };
}

impl<W: Promise, T: SlotItem<W>> Rack<W, T> {
    ghost use Rattle.message_board.specs.Pairs.{Grows};
    ghost use Rattle.message_board.specs.Rule.{brings_home, others};
    ghost use Rattle.message_board.specs.Seats.{IsBoardOf, IsSeatOf, TookOut, FoundOut, AreFresh, AreNewSeats, slots_of};

    /// A rack with `messages` empty cells and a slot for each item, and its seats. Out of memory, the items come back.
    pub fn make(
        alloc: Global,
        words: W,
        messages: u32,
        seats: u32,
        items: Vec<T>,
    ) -> Result<(Rack<W, T>, Vec<BoardSeat<W, T>>), (AllocError, Vec<T>)>
    where
        W: Drop,
        T: Drop,
        requires seats { 0 < seats }
        requires messages { length (W.list words) ≡ messages }
        requires few { vec_len items < 2 ^ 32 }
        requires items { AreFresh T.good T.posted words items.items }
        ensures rack { IfOk result (λ r. IsBoardOf words seats (vec_len items) r.0) }
        ensures count { IfOk result (λ r. vec_len r.1 ≡ seats) }
        ensures seats { IfOk result (λ r. AreNewSeats r.0 r.1.items) }
        ensures back { IfErr result (λ r. r.1.items ≡ items.items) }
    {
        match Board::with_slots(alloc, words, messages, seats, items) {
            Ok(made) => {
                let (board, seats) = made;
                Ok((Rack { board }, seats))
            }
            Err(refused) => Err(refused),
        }
    }

    /// Its board, for posts, takes and folds.
    pub fn board(&self) -> &Board<W, T>
        ensures { result.now ≡ self.now }
    {
        &self.board
    }

    /// The board, once the rack is done with.
    pub fn into_board(self) -> Board<W, T>
        ensures { result ≡ self }
    {
        let Rack { board } = self;
        board
    }

    /// How many slots there are, which are numbered from 0.
    pub fn slots(&self) -> u32
        ensures { result ≡ slots_of self.now.id }
    {
        self.board.slots()
    }

    /// The item of a slot, which this seat holds then, or nothing where the slot is out. It is out only with this seat
    /// where the seat stands for all.
    pub fn take(&self, seat: &mut BoardSeat<W, T>, slot: u32) -> Option<T>
        requires seat { IsSeatOf self.now seat.old }
        requires inside { slot < slots_of self.now.id }
        ensures seat { IsSeatOf self.now seat.new }
        ensures found { IfSome result (TookOut T.good T.posted self.now.about.world seat.old seat.new slot) }
        ensures none { IfNone result (FoundOut W.list self.now seat.old seat.new slot) }
    {
        self.board.take_out(seat, slot)
    }

    /// Puts an item into the slot that the seat took last.
    pub fn put(&self, seat: &mut BoardSeat<W, T>, slot: u32, item: T)
        requires seat { IsSeatOf self.now seat.old }
        requires inside { slot < slots_of self.now.id }
        requires held { seat.old.view.out ≡ slot ∷ others seat.old.view.out }
        requires good { T.good self.now.about.world item slot }
        requires posts { Grows (T.posted self.now.about.world item) seat.old.view.seen }
        ensures seat { IsSeatOf self.now seat.new }
        ensures view { seat.new.view ≡ brings_home seat.old.view }
    {
        self.board.bring_home(seat, slot, item);
    }
}
