//! A board when no thread shares it any more.
ghost use Rattle.std.specs.Prelude.{◌≡◌, ◌<◌, length};
ghost use Rattle.message_board.specs.Words.{word_as};

use crate::flags::{flag_of, full_word_of};
use atomic_table::Closed;
use std::alloc::Global;
use std::marker::Model;

/// The cells of a board that no thread shares any more. Contracts see the word of each cell, if it is full.
pub struct ClosedBoard<T> {
    pub(crate) closed: Closed<Option<T>, Global>,
    pub(crate) messages: usize,
}

impl<T> Model for ClosedBoard<T> {
    ghost use Rattle.std.specs.Prelude.{◌≡◌, ℕ, ◌+◌, ◌<◌, List, Option, length};
    ghost use Rattle.std.specs.Mem.Slots.{slots_items, IsFull};
    ghost use Rattle.message_board.specs.Words.{cells_of, cell_words};

    ghost Value = { List (Option ℕ) };

    ghost view = { λ c. cells_of c.messages (slots_items c.closed.words) };

    ghost invariant = { λ c. IsFull c.closed.words × IsFull c.closed.slots
        × (cell_words c.messages < length (slots_items c.closed.words)) };
}

impl<T> ClosedBoard<T> {
    ghost use Rattle.message_board.specs.Plain.{plain_cell};

    /// The word of a cell, or nothing exactly where it is empty.
    pub fn cell(&self, number: u32) -> Option<u64>
        requires { number < length self.now }
        ensures { result ≡ plain_cell self.now number }
    {
        let full = self.closed.word(self.messages + full_word_of(number) + 1);
        word_of(flag_of(number, full), self.closed.word(number as usize + 1))
    }
}

impl<T: Drop> Drop for ClosedBoard<T> {
    fn drop(self) {
        let Self {
            mut closed,
            messages: _,
        } = self;
        let mut i = 0;
        while i < closed.slot_count() {
            drop(closed.take(i));
            i += 1;
        }
        closed.free();
    }
}

// The word of a cell of this flag and this value.
fn word_of(full: u64, value: u64) -> Option<u64>
    ensures { result ≡ word_as full value }
{
    if full == 0 { None } else { Some(value) }
}
