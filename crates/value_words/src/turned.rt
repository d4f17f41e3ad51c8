//! Numbers as words of wires, bit by bit.
ghost use Rattle.std.specs.Prelude.{◌≡◌, ◌+◌, ◌*◌, ◌^◌, ◌<◌, ◌≤◌, ◌++◌, IfOk, OnOk, length, slice_index};
ghost use Rattle.std.specs.Int.{bit_at};
ghost use Rattle.value_words.specs.Turned.{as_numbers, column, is_numeric, turned, wires_of};

use std::alloc::{AllocError, Global};

/// The most bits of a number.
pub const MOST_BITS: u32 = 64;

/// Whether the words of this session are numbers.
pub fn is_numeric(numeric: &[bool], session: u32) -> bool
    ensures { result ≡ is_numeric numeric.now session }
{
    (session as usize) < numeric.len() && numeric[session as usize]
}

/// Whether a value of so many wires in this session is written as numbers.
pub fn as_numbers(numeric: &[bool], session: u32, width: u32) -> bool
    ensures { result ≡ as_numbers numeric.now session width }
{
    is_numeric(numeric, session) && width <= MOST_BITS
}

/// The bit in this place of a number, which has none from place 64 on.
fn bit_of(number: u64, place: u32) -> u64
    ensures { result ≡ bit_at number place }
{
    if place < 64 { number >> place & 1 } else { 0 }
}

/// The number of the rows so far, of which there are so many, with bit `place` of the next one.
pub fn with_bit(number: u64, rows: u32, row: u64, place: u32) -> u64
    requires few { rows < 64 }
    requires below { number < 2 ^ rows }
    ensures is { result ≡ number + bit_at row place * 2 ^ rows }
    ensures below { result < 2 ^ (rows + 1) }
{
    number + (bit_of(row, place) << rows)
}

/// The word of a wire: its bit of each of `lanes` numbers, which stand from this place on.
fn word_of(numbers: &[u64], first: usize, lanes: u32, wire: u32) -> u64
    requires few { lanes ≤ 64 }
    requires there { first + lanes ≤ length numbers.now }
    ensures { result ≡ column lanes (λ lane. slice_index numbers.now (first + lane)) wire }
{
    let mut word = 0;
    for lane in 0..lanes {
        word = with_bit(word, lane, numbers[first + lane as usize], wire);
    }
    word
}

/// Adds the words of the wires of a value.
fn push_wires(
    words: &mut Vec<u64>,
    numbers: &[u64],
    first: usize,
    lanes: u32,
    width: u32,
) -> Result<(), AllocError>
    requires few { lanes ≤ 64 }
    requires there { first + lanes ≤ length numbers.now }
    ensures { OnOk result (words.new.items
        ≡ words.old.items ++ turned lanes (λ lane. slice_index numbers.now (first + lane)) width) }
{
    for wire in 0..width {
        words.push(word_of(numbers, first, lanes, wire))?;
    }
    Ok(())
}

/// The words of the wires of values of these widths, where there is a number for each lane of each value.
pub fn wires_of(
    alloc: Global,
    lanes: u32,
    widths: &[u32],
    numbers: &[u64],
) -> Result<Vec<u64>, AllocError>
    requires few { lanes ≤ 64 }
    requires all { length numbers.now ≡ length widths.now * lanes }
    ensures { IfOk result (λ words. words.items ≡ wires_of lanes widths.now numbers.now) }
{
    let mut words = Vec::new(alloc);
    for value in 0..widths.len() {
        push_wires(
            &mut words,
            numbers,
            value * lanes as usize,
            lanes,
            widths[value],
        )?;
    }
    Ok(words)
}
