//! A board as the cells of one thread.
use crate::board::{Board, BoardSeat};
use crate::cells::{Cells, Posted};
use crate::steps::{Promise, SlotItem};

/// A board with a seat of its own, as cells.
#[derive(Drop)]
pub struct SeatAt<'a, W: Promise, T: SlotItem<W>> {
    pub board: &'a Board<W, T>,
    pub seat: &'a mut BoardSeat<W, T>,
}

impl<'a, W: Promise, T: SlotItem<W>> Cells for SeatAt<'a, W, T> {
    ghost use Rattle.std.specs.Prelude.{◌≡◌, ◌<◌, length, slice_get, Some};
    ghost use Rattle.message_board.specs.Pairs.{Knows};
    ghost use Rattle.message_board.specs.Seats.{IsSeatOf, AllBelow, HasPosted, HasTaken};

    ghost may_post = { λ c n w. IsSeatOf c.board.now c.seat.now
        × (slice_get (W.list c.board.now.about.world) n ≡ Some w) };

    ghost may_take = { λ c n. IsSeatOf c.board.now c.seat.now × (n < length (W.list c.board.now.about.world)) };

    ghost got = { λ c n w. Knows c.seat.now.view.seen n w };

    ghost put = { λ c n w a d. (d.board ≡ c.board) × (d.seat.ghost_name ≡ c.seat.ghost_name)
        × HasPosted c.board.now c.seat.now d.seat.now n w a };

    ghost took = { λ c n a d. (d.board ≡ c.board) × (d.seat.ghost_name ≡ c.seat.ghost_name)
        × HasTaken W.list c.board.now c.seat.now d.seat.now n a };

    ghost below = { λ c k. AllBelow k (W.list c.board.now.about.world) };

    #[inline(always)]
    fn post(&mut self, number: u32, word: u64) -> Posted {
        self.board.post(self.seat, number, word)
    }

    #[inline(always)]
    fn take(&mut self, number: u32) -> Option<u64> {
        self.board.take(self.seat, number)
    }
}
