//! Cells and slots that threads share. A cell is a value word and a flag, which is a bit of a full word that 64 cells
//! share: a post is a store of the value and then one bit-or of the full word, and a take is one load of the full word
//! and, where the flag is 1, one of the value. A slot's turn word says whether its item is at home. No step waits for
//! another thread: a bit-or goes round again only where another thread has changed the full word in between.
ghost use Rattle.std.specs.Prelude.{◌≡◌, ℕ, ◌+◌, ◌*◌, ◌/◌, ◌⊎◌, ◌<◌, ◌≤◌, ◌^◌, [], ◌∷◌, length, slice_get, Some, IfSome, IfNone, IfOk, IfErr, vec_len, vec_capacity};
ghost use Rattle.message_board.specs.Words.{posted_as};

use crate::cells::Posted;
use crate::closed::ClosedBoard;
use crate::flags::{bit_of, flag_of, full_word_of};
use crate::room::{APART, Room, fill, give_back, make_room, start_words};
use crate::steps::{
    About, BoardRule, BringsHome, Finds, Posts, Promise, SlotItem, SplitSeats, Stores, Takes,
    TakesOut, View,
};
use atomic_table::{Refused, Seat, Table};
use std::alloc::{AllocError, Global};
use std::marker::Model;

/// Cells and slots that threads share, each step of which keeps the rule of boards.
#[derive(Drop)]
pub struct Board<W: Promise, T: SlotItem<W>> {
    table: Table<Option<T>, View<W>, About<W>, BoardRule, Global>,
    // How many cells there are.
    messages: usize,
}

// To a contract a board is which table it is, and what it is about.
impl<W: Promise, T: SlotItem<W>> Model for Board<W, T> {
    ghost use Rattle.std.specs.Prelude.{◌≡◌, length};
    ghost use Rattle.message_board.specs.Seats.{IsTableFor, BoardModel, board_coded};

    ghost Value = { BoardModel W };

    ghost coded = { board_coded W.code };

    ghost view = { λ b. record { id = b.table.shared.table_id; about = b.table.shared.key } };

    ghost invariant = { λ b. IsTableFor (length (W.list b.table.shared.key.world)) b.table.shared.table_id
        × (b.messages ≡ length (W.list b.table.shared.key.world)) };
}

/// What one thread uses a board with. It knows what it posted, took and found, and holds the slots that it took. It has
/// no bytes.
#[derive(Drop)]
pub struct BoardSeat<W, T> {
    seat: Seat<Option<T>, View<W>>,
}

impl<W, T> Model for BoardSeat<W, T> {
    ghost use Rattle.std.specs.Prelude.{◌≡◌, ◌<◌, []};
    ghost use Rattle.message_board.specs.Words.{blanks};
    ghost use Rattle.message_board.specs.Rule.{settled};
    ghost use Rattle.message_board.specs.Seats.{Sitting, sitting_coded};

    ghost Value = { Sitting W };

    ghost coded = { sitting_coded W.code };

    ghost view = { λ s. record { id = s.seat.table_id; view = settled s.seat.me.0 } };

    ghost invariant = { λ s. (s.seat.me.1 ≡ blanks s.seat.me.0.out) × (0 < s.seat.me.0.seats) };
}

// What a post of the word says of the flag that it found.
fn posted_of(found: u64, word: u64) -> Posted
    ensures { result ≡ posted_as found word }
{
    if found == 0 {
        Posted::Done
    } else {
        Posted::Occupied(word)
    }
}

impl<W: Promise, T: SlotItem<W>> Board<W, T> {
    ghost use Rattle.atomic_table.specs.Table.{opening};
    ghost use Rattle.message_board.specs.Pairs.{Knows, Grows, times};
    ghost use Rattle.message_board.specs.Plain.{plain_cell};
    ghost use Rattle.message_board.specs.Words.{apart, cell_words};
    ghost use Rattle.message_board.specs.Rule.{IsBoard, posts, TakesAs, brings_home, others, folds};
    ghost use Rattle.message_board.specs.Rule.{less_one, one_seat, newcomer};
    ghost use Rattle.message_board.specs.Seats.{IsBoardOf, slots_of, IsSeatOf, IsFreeSeatOf, IsPostAnswer};
    ghost use Rattle.message_board.specs.Seats.{TookOut, FoundOut, AreFresh, AreSeatsOf, CanClose};
    ghost use Rattle.message_board.specs.Seats.{AreNewSeats, KnownBy, times_by, HasCells};

    /// A board with `messages` empty cells and no slots, and its seats.
    pub fn make(
        alloc: Global,
        words: W,
        messages: u32,
        seats: u32,
    ) -> Result<(Board<W, T>, Vec<BoardSeat<W, T>>), AllocError>
    where
        W: Drop,
        requires seats { 0 < seats }
        requires messages { length (W.list words) ≡ messages }
        ensures board { IfOk result (λ r. IsBoardOf words seats 0 r.0) }
        ensures count { IfOk result (λ r. vec_len r.1 ≡ seats) }
        ensures seats { IfOk result (λ r. AreNewSeats r.0 r.1.items) }
    {
        let made = Vec::with_capacity(alloc, seats as usize)?;
        let start = start_words(alloc, messages, 0)?;
        let about = About {
            world: words,
            seats,
        };
        let (table, seat) = Table::of_words(alloc, start.as_slice(), &about)?;
        let messages = messages as usize;
        let board = Board { table, messages };
        let made = board.seats(made, BoardSeat { seat }, seats);
        Ok((board, made))
    }

    /// A board with `messages` empty cells and a slot for each item, and its seats. Out of memory, the items come back.
    pub fn with_slots(
        alloc: Global,
        words: W,
        messages: u32,
        seats: u32,
        mut items: Vec<T>,
    ) -> Result<(Board<W, T>, Vec<BoardSeat<W, T>>), (AllocError, Vec<T>)>
    where
        W: Drop,
        T: Drop,
        requires seats { 0 < seats }
        requires messages { length (W.list words) ≡ messages }
        requires few { vec_len items < 2 ^ 32 }
        requires items { AreFresh T.good T.posted words items.items }
        ensures board { IfOk result (λ r. IsBoardOf words seats (vec_len items) r.0) }
        ensures count { IfOk result (λ r. vec_len r.1 ≡ seats) }
        ensures seats { IfOk result (λ r. AreNewSeats r.0 r.1.items) }
        ensures back { IfErr result (λ r. r.1.items ≡ items.items) }
    {
        let Ok(Room { made, start, slots }) = make_room(alloc, messages, seats, items.len()) else {
            return Err((AllocError, items));
        };
        let slots = fill(&mut items, slots);
        let about = About {
            world: words,
            seats,
        };
        match Board::open(alloc, about, messages as usize, start, slots) {
            Ok((board, first)) => {
                let made = board.seats(made, first, seats);
                Ok((board, made))
            }
            Err(slots) => Err((AllocError, give_back(items, slots))),
        }
    }

    // A board of these words and slots, with its first seat.
    fn open(
        alloc: Global,
        about: About<W>,
        messages: usize,
        start: Vec<u64>,
        slots: Vec<Option<T>>,
    ) -> Result<(Board<W, T>, BoardSeat<W, T>), Vec<Option<T>>>
    where
        W: Drop,
        T: Drop,
        requires seats { 0 < about.seats }
        requires messages { length (W.list about.world) ≡ messages }
        requires few { (length (W.list about.world) < 2 ^ 32) × (vec_len slots / apart < 2 ^ 32) }
        requires places { vec_len slots ≡ apart * (vec_len slots / apart) }
        requires words { vec_len start ≡ cell_words (length (W.list about.world)) + vec_len slots + 1 }
        requires rule { IsBoard W.list T.good T.posted about
            (opening start.items slots.items (newcomer about about.seats)) }
        ensures board { IfOk result (λ r. (r.0.about ≡ about) × (slots_of r.0.id ≡ vec_len slots / apart)) }
        ensures seat { IfOk result (λ r. IsSeatOf r.0 r.1 × (r.1.view ≡ newcomer about about.seats)) }
        ensures back { IfErr result (λ r. r.items ≡ slots.items) }
    {
        match Table::new(alloc, start.as_slice(), slots, &about) {
            Ok(opened) => {
                let (table, seat) = opened;
                Ok((Board { table, messages }, BoardSeat { seat }))
            }
            Err(refused) => {
                let Refused { slots } = refused;
                Err(slots)
            }
        }
    }

    // So many seats of a new board, each for one seat.
    fn seats(
        &self,
        mut made: Vec<BoardSeat<W, T>>,
        mut first: BoardSeat<W, T>,
        count: u32,
    ) -> Vec<BoardSeat<W, T>>
        requires count { 0 < count }
        requires first { IsSeatOf self.now first × (first.view ≡ newcomer self.now.about count) }
        requires room { (made.items ≡ []) × (count ≤ vec_capacity made) }
        ensures count { vec_len result ≡ count }
        ensures seats { AreNewSeats self.now result.items }
    {
        for _ in 1..count {
            made.push_reserved(self.another(&mut first));
        }
        made.push_reserved(first);
        made
    }

    // Makes another seat, which takes over one of the seats that this one stands for.
    fn another(&self, seat: &mut BoardSeat<W, T>) -> BoardSeat<W, T>
        requires seat { IsSeatOf self.now seat.old }
        requires seats { 1 < seat.old.view.seats }
        ensures seat { IsSeatOf self.now seat.new × (seat.new.view ≡ less_one seat.old.view) }
        ensures other { IsSeatOf self.now result × (result.view ≡ one_seat seat.old.view) }
    {
        BoardSeat {
            seat: self.table.shared.split_seat::<SplitSeats>(&mut seat.seat),
        }
    }

    /// Fills the cell with its word: Done, or the word that the cell had.
    #[inline(always)]
    pub fn post(&self, seat: &mut BoardSeat<W, T>, number: u32, word: u64) -> Posted
        requires seat { IsSeatOf self.now seat.old }
        requires promised { slice_get (W.list self.now.about.world) number ≡ Some word }
        ensures seat { IsSeatOf self.now seat.new }
        ensures view { seat.new.view ≡ posts seat.old.view number word result }
        ensures found { IsPostAnswer word result }
    {
        self.table
            .shared
            .store::<Stores<W, T>>(&mut seat.seat, number as usize + 1, word);
        let full = self.messages + full_word_of(number) + 1;
        let found = self
            .table
            .shared
            .fetch_or::<Posts<W, T>>(&mut seat.seat, full, bit_of(number));
        posted_of(flag_of(number, found), word)
    }

    /// The word of a cell, or None where its flag was 0 in the full word that was found. A cell that the seat knows is
    /// never empty.
    #[inline(always)]
    pub fn take(&self, seat: &mut BoardSeat<W, T>, number: u32) -> Option<u64>
        requires seat { IsSeatOf self.now seat.old }
        requires inside { number < length (W.list self.now.about.world) }
        ensures seat { IsSeatOf self.now seat.new }
        ensures view { TakesAs seat.old.view number result seat.new.view }
        ensures promised { IfSome result (λ w. slice_get (W.list self.now.about.world) number ≡ Some w) }
        ensures known { (w : ℕ) → Knows seat.old.view.seen number w → result ≡ Some w }
    {
        let full = self
            .table
            .shared
            .load::<Finds<W, T>>(&mut seat.seat, self.messages + full_word_of(number) + 1);
        let flag = flag_of(number, full);
        if flag == 0 {
            return None;
        }
        let value = self
            .table
            .shared
            .load::<Takes<W, T>>(&mut seat.seat, number as usize + 1);
        Some(value)
    }

    /// How many slots there are, which are numbered from 0.
    pub fn slots(&self) -> u32
        ensures { result ≡ slots_of self.now.id }
    {
        (self.table.slot_count() / APART) as u32
    }

    /// The item of a slot, which the seat holds then, or nothing where the slot is out. Where the seat
    /// stands for all seats, it is out only with this seat.
    pub fn take_out(&self, seat: &mut BoardSeat<W, T>, slot: u32) -> Option<T>
        requires seat { IsSeatOf self.now seat.old }
        requires inside { slot < slots_of self.now.id }
        ensures seat { IsSeatOf self.now seat.new }
        ensures found { IfSome result (TookOut T.good T.posted self.now.about.world seat.old seat.new slot) }
        ensures none { IfNone result (FoundOut W.list self.now seat.old seat.new slot) }
    {
        let place = self.turn_place(slot);
        let found = self
            .table
            .shared
            .compare_exchange::<TakesOut<W, T>>(&mut seat.seat, place, 1, 0);
        if found == 0 {
            return None;
        }
        self.table
            .shared
            .exchange(&mut seat.seat, APART * slot as usize, None)
    }

    /// Puts an item into the slot that the seat took last.
    pub fn bring_home(&self, seat: &mut BoardSeat<W, T>, slot: u32, item: T)
        requires seat { IsSeatOf self.now seat.old }
        requires inside { slot < slots_of self.now.id }
        requires held { seat.old.view.out ≡ slot ∷ others seat.old.view.out }
        requires good { T.good self.now.about.world item slot }
        requires posts { Grows (T.posted self.now.about.world item) seat.old.view.seen }
        ensures seat { IsSeatOf self.now seat.new }
        ensures view { seat.new.view ≡ brings_home seat.old.view }
    {
        let place = self.turn_place(slot);
        let old = self
            .table
            .shared
            .exchange(&mut seat.seat, APART * slot as usize, Some(item));
        let None = old else { unreachable!() };
        self.table
            .shared
            .store::<BringsHome<W, T>>(&mut seat.seat, place, 1);
    }

    /// One seat that knows what both knew. The other holds no slot.
    pub fn fold(&self, mut seat: BoardSeat<W, T>, other: BoardSeat<W, T>) -> BoardSeat<W, T>
        requires seat { IsSeatOf self.now seat }
        requires other { IsFreeSeatOf self.now other }
        ensures seat { IsSeatOf self.now result }
        ensures view { result.view ≡ folds seat.view other.view }
    {
        let BoardSeat { seat: spent } = other;
        self.table
            .shared
            .join_seat::<SplitSeats>(&mut seat.seat, spent);
        seat
    }

    // One seat that knows what all knew.
    fn fold_all(&self, first: BoardSeat<W, T>, mut seats: Vec<BoardSeat<W, T>>) -> BoardSeat<W, T>
        requires first { IsSeatOf self.now first }
        requires seats { AreSeatsOf self.now seats.items }
        ensures seat { IsSeatOf self.now result }
        ensures seen { (k w : ℕ) → Knows first.view.seen k w ⊎ KnownBy seats.items k w → Knows result.view.seen k w }
        ensures mine { (k : ℕ) → times k result.view.mine ≡ times k first.view.mine + times_by k seats.items }
    {
        let mut seat = first;
        while let Some(other) = seats.pop() {
            seat = self.fold(seat, other);
        }
        seat
    }

    /// The cells, once no thread has a seat any more. Only the last seat may still hold slots.
    pub fn close(self, mut seats: Vec<BoardSeat<W, T>>) -> ClosedBoard<T>
        requires some { 0 < vec_len seats }
        requires seats { CanClose self seats.items }
        ensures cells { HasCells (W.list self.about.world) result }
        ensures seen { (k w : ℕ) → KnownBy seats.items k w → plain_cell result k ≡ Some w }
        ensures once { (k : ℕ) → times_by k seats.items ≤ 1 }
    {
        let Some(first) = seats.pop() else {
            unreachable!()
        };
        let keeper = self.fold_all(first, seats);
        let Board { table, messages } = self;
        let BoardSeat { seat } = keeper;
        ClosedBoard {
            closed: table.close_with(seat),
            messages,
        }
    }

    // The place of a slot's turn word.
    fn turn_place(&self, slot: u32) -> usize
        requires { slot < slots_of self.now.id }
        ensures { result ≡ cell_words (length (W.list self.now.about.world)) + apart * slot + 1 }
    {
        self.table.word_count() - self.table.slot_count() + APART * slot as usize
    }
}
