//! What a board is made of.
ghost use Rattle.std.specs.Prelude.{◌≡◌, ◌+◌, ◌*◌, ◌<◌, ◌≤◌, ◌^◌, [], ◌++◌, replicate, length, None, IfOk, vec_len, vec_capacity};
ghost use Rattle.message_board.specs.Words.{apart, cell_words, held, spaced};

use crate::board::BoardSeat;
use crate::flags::full_words_of;
use std::alloc::{AllocError, Global};

/// So many places of a table belong to each slot.
pub const APART: usize = 16;

/// What a board with slots is made of, before the items lie in it.
pub struct Room<W, T> {
    pub made: Vec<BoardSeat<W, T>>,
    pub start: Vec<u64>,
    pub slots: Vec<Option<T>>,
}

/// Reserves all that a board of `messages` cells, `seats` seats and `slots` slots needs but its table.
pub fn make_room<W, T: Drop>(
    alloc: Global,
    messages: u32,
    seats: u32,
    slots: usize,
) -> Result<Room<W, T>, AllocError>
    requires { slots < 2 ^ 32 }
    ensures made { IfOk result (λ r. (r.made.items ≡ []) × (seats ≤ vec_capacity r.made)) }
    ensures start { IfOk result (λ r. r.start.items
        ≡ replicate (cell_words messages + 1) 0 ++ replicate (apart * slots) 1) }
    ensures slots { IfOk result (λ r. (r.slots.items ≡ []) × (apart * slots ≤ vec_capacity r.slots)) }
{
    let made = Vec::with_capacity(alloc, seats as usize)?;
    let start = start_words(alloc, messages, slots)?;
    let slots = Vec::with_capacity(alloc, APART * slots)?;
    Ok(Room { made, start, slots })
}

/// The words of a table at its start: empty cells, and each slot at home.
pub fn start_words(alloc: Global, messages: u32, slots: usize) -> Result<Vec<u64>, AllocError>
    requires { slots < 2 ^ 32 }
    ensures { IfOk result (λ v. v.items ≡ replicate (cell_words messages + 1) 0 ++ replicate (apart * slots) 1) }
{
    let cells = messages as usize + full_words_of(messages) + 1;
    let mut words = Vec::with_capacity(alloc, cells + APART * slots)?;
    words.resize(cells, 0u64)?;
    words.resize(cells + APART * slots, 1)?;
    Ok(words)
}

/// Moves the items into slots, in order and apart from each other.
pub fn fill<T>(items: &mut Vec<T>, mut slots: Vec<Option<T>>) -> Vec<Option<T>>
    requires { (slots.items ≡ []) × (apart * vec_len items.old ≤ vec_capacity slots) }
    ensures slots { result.items ≡ spaced items.old.items }
    ensures items { items.new.items ≡ [] }
    ensures capacity { vec_capacity items.new ≡ vec_capacity items.old }
{
    while let Some(item) = items.pop() {
        push_nothing(&mut slots);
        slots.push_reserved(Some(item));
    }
    slots.reverse();
    slots
}

// What keeps an item apart from the next.
fn push_nothing<T>(slots: &mut Vec<Option<T>>)
    requires { length slots.old.items + 15 ≤ vec_capacity slots.old }
    ensures items { slots.new.items ≡ slots.old.items ++ replicate 15 None }
    ensures capacity { vec_capacity slots.new ≡ vec_capacity slots.old }
{
    for _ in 1..APART {
        slots.push_reserved(None);
    }
}

/// Moves the items back, in order.
pub fn give_back<T>(mut items: Vec<T>, mut slots: Vec<Option<T>>) -> Vec<T>
    requires { (items.items ≡ []) × (length (held slots.items) ≤ vec_capacity items) }
    ensures { result.items ≡ held slots.items }
{
    while let Some(slot) = slots.pop() {
        match slot {
            Some(item) => items.push_reserved(item),
            None => {}
        }
    }
    slots.destroy_empty();
    items.reverse();
    items
}
