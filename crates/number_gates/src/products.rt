//! Gates of products: rows are added without their carries going on (carry-save adders in a tree: Wallace, "A
//! suggestion for a fast multiplier", 1964), and only the last two by a sum.
ghost use Rattle.std.specs.Prelude.{◌≡◌, ◌+◌, IfOk, length};
ghost use Rattle.number_gates.specs.Steps.{Runs};
ghost use Rattle.number_gates.specs.BitLists.{widened};
ghost use Rattle.number_gates.specs.Products.{kept_pair, save_same, save, shifted, first_row, saved, rows, product};

use crate::bit_lists::{back, bit_at, copied, front, joined, repeated, widened};
use crate::gates::{BitGates, Joint};
use crate::wire::Bit;
use std::alloc::{AllocError, Global};

/// Two numbers whose sum is wanted.
#[derive(Drop)]
pub struct Pair {
    pub first: Vec<Bit>,
    pub second: Vec<Bit>,
}

/// The bits behind as many zeros as this says: the number times that power of two.
fn shifted(alloc: Global, by: usize, bits: &[Bit]) -> Result<Vec<Bit>, AllocError>
    ensures { IfOk result (λ c. c.items ≡ shifted by bits.now) }
{
    joined(repeated(alloc, Bit::Zero, by)?, bits)
}

/// How many bits two numbers have together.
fn both_widths(a: &[Bit], b: &[Bit]) -> Result<usize, AllocError>
    ensures { IfOk result (λ n. n ≡ length a.now + length b.now) }
{
    match a.len().checked_add(b.len()) {
        Some(width) => Ok(width),
        None => Err(AllocError),
    }
}

impl BitGates {
    /// Two numbers in place of three of this width: in each position the bit of the sum, and the carry into the
    /// next one.
    fn save_same(
        &mut self,
        alloc: Global,
        width: usize,
        first: &[Bit],
        second: &[Bit],
        third: &[Bit],
    ) -> Result<Pair, AllocError>
        ensures { IfOk result (λ c.
            Runs (save_same width first.now second.now third.now) self.old (kept_pair c) self.new) }
    {
        let one = self.join_all(alloc, Joint::Differ, first, third)?;
        let other = self.join_all(alloc, Joint::Differ, second, third)?;
        let bits = self.join_all(alloc, Joint::Differ, &one, second)?;
        let two = self.join_all(alloc, Joint::Both, &one, &other)?;
        let carries = self.join_all(alloc, Joint::Differ, &two, third)?;
        let carried = joined(vec![in alloc; Bit::Zero]?, &carries)?;
        Ok(Pair {
            first: bits,
            second: copied(alloc, front(&carried, width))?,
        })
    }

    /// The same for three numbers of at most this width.
    fn save(
        &mut self,
        alloc: Global,
        width: usize,
        first: &[Bit],
        second: &[Bit],
        third: &[Bit],
    ) -> Result<Pair, AllocError>
        ensures { IfOk result (λ c. Runs (save width first.now second.now third.now) self.old (kept_pair c) self.new) }
    {
        let first = widened(alloc, width, first)?;
        let second = widened(alloc, width, second)?;
        let third = widened(alloc, width, third)?;
        self.save_same(alloc, width, &first, &second, &third)
    }

    /// The product of the first bit and a number.
    fn first_row(&mut self, alloc: Global, a: &[Bit], b: &[Bit]) -> Result<Pair, AllocError>
        ensures { IfOk result (λ c. Runs (first_row a.now b.now) self.old (kept_pair c) self.new) }
    {
        let first = self.both_each(alloc, bit_at(a, 0, Bit::Zero), b)?;
        Ok(Pair {
            first,
            second: Vec::new(alloc),
        })
    }

    /// The two numbers of low bits and the two of high bits, which stand that many places higher, in two of
    /// this width.
    fn saved(
        &mut self,
        alloc: Global,
        width: usize,
        by: usize,
        low: &Pair,
        high: &Pair,
    ) -> Result<Pair, AllocError>
        ensures { IfOk result (λ c.
            Runs (saved width by (kept_pair low.now) (kept_pair high.now)) self.old (kept_pair c) self.new) }
    {
        let third = shifted(alloc, by, &high.first)?;
        let three = self.save(alloc, width, &low.first, &low.second, &third)?;
        let fourth = shifted(alloc, by, &high.second)?;
        self.save(alloc, width, &three.first, &three.second, &fourth)
    }

    /// Two numbers whose sum is the product, by halves of the first number, at most `depth` times one in
    /// another.
    fn rows(
        &mut self,
        alloc: Global,
        depth: usize,
        a: &[Bit],
        b: &[Bit],
    ) -> Result<Pair, AllocError>
        ensures { IfOk result (λ c. Runs (rows depth a.now b.now) self.old (kept_pair c) self.new) }
    {
        if depth == 0 {
            return self.first_row(alloc, a, b);
        }
        if a.len() < 2 {
            return self.first_row(alloc, a, b);
        }
        let half = a.len() / 2;
        let low = self.rows(alloc, depth - 1, front(a, half), b)?;
        let high = self.rows(alloc, depth - 1, back(a, half), b)?;
        let width = both_widths(a, b)?;
        self.saved(alloc, width, half, &low, &high)
    }

    /// The product, as wide as both numbers together. Past 2^64 bits there is no memory.
    pub fn product(&mut self, alloc: Global, a: &[Bit], b: &[Bit]) -> Result<Vec<Bit>, AllocError>
        ensures { IfOk result (λ c. Runs (product a.now b.now) self.old c.items self.new) }
    {
        let width = both_widths(a, b)?;
        let pair = self.rows(alloc, a.len(), a, b)?;
        let first = widened(alloc, width, &pair.first)?;
        let second = widened(alloc, width, &pair.second)?;
        let sum = self.sum_same(alloc, &first, &second)?;
        copied(alloc, front(&sum, width))
    }
}
