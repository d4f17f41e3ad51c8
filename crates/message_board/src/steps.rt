//! What a board keeps, and what each kind of step tells the seat that makes it.
ghost use Rattle.std.specs.Prelude.{ℕ, List};

use atomic_table::{Join, Play, Split, TableRule};
use std::collections::LinkedList;
use std::marker::PhantomData;

/// A value whose meaning is a list of words, one for each number.
pub trait Promise {
    ghost list: { Self → List ℕ };
}

/// A value that may lie in a slot of a board about a `W`.
pub trait SlotItem<W> {
    // The value is good for this slot.
    ghost good: { W → Self → ℕ → Type 0 };

    // The pairs of a number and a word that it posted.
    ghost posted: { W → Self → List (ℕ × ℕ) };
}

/// What a board is about, and how many seats it was made with.
#[derive(Drop)]
pub struct About<W> {
    pub world: W,
    pub seats: u32,
}

/// What a seat knows. Contracts alone speak of it: no value of it is made.
pub struct View<W> {
    pub about: Option<About<W>>,
    // For how many of the seats made this one stands.
    pub seats: u32,
    // The words that it posted, found, took or was told of, each with its number.
    pub seen: LinkedList<(u32, u64)>,
    // The numbers of the cells that its own posts filled.
    pub mine: LinkedList<u32>,
    // What it looked at in vain, by number, each with what it found there: the full words in which a flag was 0, and
    // the turn words of slots that were out, whose numbers are counted on from the number of cells.
    pub looked: LinkedList<(u32, u64)>,
    // Within a post, the number whose value it has stored.
    pub stored: LinkedList<u32>,
    // Within a take, the number of the full word that it loaded, and what it found there.
    pub found: LinkedList<(u32, u64)>,
    // The slots that it holds, the last one taken first.
    pub out: LinkedList<u32>,
}

/// The rule of a board's table.
pub struct BoardRule;

impl<W: Promise, T: SlotItem<W>> TableRule<Option<T>, View<W>, About<W>> for BoardRule {
    ghost use Rattle.message_board.specs.Rule.{IsBoard, newcomer};

    ghost holds = { IsBoard W.list T.good T.posted };

    ghost first = { λ about. newcomer about about.seats };
}

/// The store of a value, the first step of a post.
pub struct Stores<W, T> {
    of: PhantomData<(W, T)>,
}

impl<W: Promise, T: SlotItem<W>> Play<Option<T>, View<W>> for Stores<W, T> {
    ghost use Rattle.message_board.specs.Rule.{stored_step};

    ghost then = { stored_step W.list T.good T.posted };
}

/// The bit-or of a full word, which ends a post.
pub struct Posts<W, T> {
    of: PhantomData<(W, T)>,
}

impl<W: Promise, T: SlotItem<W>> Play<Option<T>, View<W>> for Posts<W, T> {
    ghost use Rattle.message_board.specs.Rule.{posted_step};

    ghost then = { posted_step W.list T.good T.posted };
}

/// The load of a full word, the first step of a take.
pub struct Finds<W, T> {
    of: PhantomData<(W, T)>,
}

impl<W: Promise, T: SlotItem<W>> Play<Option<T>, View<W>> for Finds<W, T> {
    ghost use Rattle.message_board.specs.Rule.{found_step};

    ghost then = { found_step W.list T.good T.posted };
}

/// The load of a value, which ends a take.
pub struct Takes<W, T> {
    of: PhantomData<(W, T)>,
}

impl<W: Promise, T: SlotItem<W>> Play<Option<T>, View<W>> for Takes<W, T> {
    ghost use Rattle.message_board.specs.Rule.{taken_step};

    ghost then = { taken_step W.list T.good T.posted };
}

/// A slot goes out with a seat.
pub struct TakesOut<W, T> {
    of: PhantomData<(W, T)>,
}

impl<W: Promise, T: SlotItem<W>> Play<Option<T>, View<W>> for TakesOut<W, T> {
    ghost use Rattle.message_board.specs.Rule.{out_step};

    ghost then = { out_step W.list T.good T.posted };
}

/// A slot comes home.
pub struct BringsHome<W, T> {
    of: PhantomData<(W, T)>,
}

impl<W: Promise, T: SlotItem<W>> Play<Option<T>, View<W>> for BringsHome<W, T> {
    ghost use Rattle.message_board.specs.Rule.{home_step};

    ghost then = { home_step W.list T.good T.posted };
}

/// A seat makes another, and two become one.
pub struct SplitSeats;

impl<W> Split<View<W>> for SplitSeats {
    ghost use Rattle.message_board.specs.Rule.{less_one, one_seat};

    ghost left = { less_one };

    ghost right = { one_seat };
}

impl<W> Join<View<W>> for SplitSeats {
    ghost use Rattle.message_board.specs.Rule.{folds, spent};

    ghost both = { folds };

    ghost spent = { spent };
}
