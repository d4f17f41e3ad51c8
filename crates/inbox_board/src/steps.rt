//! What an inbox keeps, and what each kind of step tells the seat that makes it.
use atomic_table::{Join, Play, Split, TableRule};
use std::collections::LinkedList;

/// What a seat knows. Contracts alone speak of it: no value of it is made.
pub struct InboxView {
    // 1 where it has the pen, which only the writer has, else 0.
    pub pens: u32,
    // With the pen: how many places it has filled, the mark that it gave,
    // and the value that it has stored within a push.
    pub length: u32,
    pub ended: u64,
    pub stored: Option<u64>,
    // The words that it pushed or got, each with its place.
    pub seen: LinkedList<(u32, u64)>,
    // The count that it found last, and the mark, 0 before.
    pub upto: u64,
    pub noted: u64,
    // The count that it found after a mark, which no push changes any more.
    pub total: Option<u64>,
    // What it found at each look at the count, and at each look at the mark, the last one first.
    pub counts: LinkedList<u64>,
    pub marks: LinkedList<u64>,
}

/// The rule of an inbox's table.
pub struct InboxRule;

impl TableRule<(), InboxView, u32> for InboxRule {
    ghost use Rattle.inbox_board.specs.Rule.{IsInbox, newcomer};

    ghost holds = { IsInbox };

    ghost first = { λ places. newcomer 1 };
}

/// The store of a value, the first step of a push.
pub struct StoresWord;

impl Play<(), InboxView> for StoresWord {
    ghost use Rattle.inbox_board.specs.Rule.{stored_step};

    ghost then = { stored_step };
}

/// The store of the count, which ends a push.
pub struct StoresCount;

impl Play<(), InboxView> for StoresCount {
    ghost use Rattle.inbox_board.specs.Rule.{counted_step};

    ghost then = { counted_step };
}

/// The load of the count.
pub struct FindsCount;

impl Play<(), InboxView> for FindsCount {
    ghost use Rattle.inbox_board.specs.Rule.{found_step};

    ghost then = { found_step };
}

/// The load of the value at a place.
pub struct Gets;

impl Play<(), InboxView> for Gets {
    ghost use Rattle.inbox_board.specs.Rule.{got_step};

    ghost then = { got_step };
}

/// The store of the mark.
pub struct Ends;

impl Play<(), InboxView> for Ends {
    ghost use Rattle.inbox_board.specs.Rule.{ended_step};

    ghost then = { ended_step };
}

/// The load of the mark.
pub struct Notes;

impl Play<(), InboxView> for Notes {
    ghost use Rattle.inbox_board.specs.Rule.{noted_step};

    ghost then = { noted_step };
}

/// A load that tells how what the seat knows fits together.
pub struct Compares;

impl Play<(), InboxView> for Compares {
    ghost use Rattle.inbox_board.specs.Rule.{compared_step};

    ghost then = { compared_step };
}

/// A seat makes another, which reads, and two become one.
pub struct SplitReaders;

impl Split<InboxView> for SplitReaders {
    ghost use Rattle.inbox_board.specs.Rule.{newcomer};

    ghost left = { λ v. v };

    ghost right = { λ v. newcomer 0 };
}

impl Join<InboxView> for SplitReaders {
    ghost use Rattle.inbox_board.specs.Rule.{folds, newcomer};

    ghost both = { folds };

    ghost spent = { newcomer 0 };
}
