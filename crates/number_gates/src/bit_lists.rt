//! Gates of lists of bits.
ghost use Rattle.std.specs.Prelude.{◌≡◌, ◌-◌, ◌++◌, IfOk, take, drop, length, replicate, slice_index_or};
ghost use Rattle.number_gates.specs.Steps.{Runs};
ghost use Rattle.number_gates.specs.BitLists.{join_all, both_each, opposite_all, widened, closed};

use crate::gates::{BitGates, Joint};
use crate::wire::Bit;
use std::alloc::{AllocError, Global};

/// The first `n` bits, or all where there are fewer.
pub fn front(bits: &[Bit], n: usize) -> &[Bit]
    ensures { result.now ≡ take n bits.now }
{
    &bits[..n.min(bits.len())]
}

/// The bits after the first `n`.
pub(crate) fn back(bits: &[Bit], n: usize) -> &[Bit]
    ensures { result.now ≡ drop n bits.now }
{
    &bits[n.min(bits.len())..]
}

/// The bit at a place, or else another one.
pub(crate) fn bit_at(bits: &[Bit], at: usize, other: Bit) -> Bit
    ensures { result ≡ slice_index_or bits.now at other }
{
    if at < bits.len() { bits[at] } else { other }
}

/// As many of one bit as this number says.
pub(crate) fn repeated(alloc: Global, bit: Bit, n: usize) -> Result<Vec<Bit>, AllocError>
    ensures { IfOk result (λ c. c.items ≡ replicate n bit) }
{
    Ok(vec![in alloc; bit; n]?)
}

/// The bits with zeros behind them, at least `n` in all.
pub fn widened(alloc: Global, n: usize, bits: &[Bit]) -> Result<Vec<Bit>, AllocError>
    ensures { IfOk result (λ c. c.items ≡ widened n bits.now) }
{
    let mut wide = Vec::with_capacity(alloc, n.max(bits.len()))?;
    wide.extend_from_slice(bits)?;
    let more = repeated(alloc, Bit::Zero, n.saturating_sub(bits.len()))?;
    wide.extend_from_slice(&more)?;
    Ok(wide)
}

/// The last bit, or else another one.
pub(crate) fn last_bit(bits: &[Bit], other: Bit) -> Bit
    ensures { result ≡ slice_index_or bits.now (length bits.now - 1) other }
{
    bit_at(bits, bits.len().saturating_sub(1), other)
}

/// A copy of the bits.
pub fn copied(alloc: Global, bits: &[Bit]) -> Result<Vec<Bit>, AllocError>
    ensures { IfOk result (λ c. c.items ≡ bits.now) }
{
    let mut copy = Vec::with_capacity(alloc, bits.len())?;
    copy.extend_from_slice(bits)?;
    Ok(copy)
}

/// The bits of the one and then of the other.
pub fn joined(mut low: Vec<Bit>, high: &[Bit]) -> Result<Vec<Bit>, AllocError>
    ensures { IfOk result (λ c. c.items ≡ low.items ++ high.now) }
{
    low.extend_from_slice(high)?;
    Ok(low)
}

/// Makes the first bit a zero.
pub(crate) fn close(bits: &mut Vec<Bit>)
    ensures { bits.new.items ≡ closed bits.old.items }
{
    if bits.len() > 0 {
        bits[0] = Bit::Zero;
    }
}

impl BitGates {
    /// The bits of two lists joined, one by one, as far as both go.
    pub(crate) fn join_all(
        &mut self,
        alloc: Global,
        how: Joint,
        a: &[Bit],
        b: &[Bit],
    ) -> Result<Vec<Bit>, AllocError>
        ensures { IfOk result (λ c. Runs (join_all how a.now b.now) self.old c.items self.new) }
    {
        let few = a.len().min(b.len());
        let mut joined = Vec::with_capacity(alloc, few)?;
        for i in 0..few {
            let bit = self.join(how, a[i], b[i])?;
            joined.push(bit)?;
        }
        Ok(joined)
    }

    /// The bits where this one is 1, and zeros where it isn't.
    pub(crate) fn both_each(
        &mut self,
        alloc: Global,
        a: Bit,
        bits: &[Bit],
    ) -> Result<Vec<Bit>, AllocError>
        ensures { IfOk result (λ c. Runs (both_each a bits.now) self.old c.items self.new) }
    {
        let same = repeated(alloc, a, bits.len())?;
        self.join_all(alloc, Joint::Both, &same, bits)
    }

    /// The other bits.
    pub(crate) fn opposite_all(
        &mut self,
        alloc: Global,
        bits: &[Bit],
    ) -> Result<Vec<Bit>, AllocError>
        ensures { IfOk result (λ c. Runs (opposite_all bits.now) self.old c.items self.new) }
    {
        let ones = repeated(alloc, Bit::One, bits.len())?;
        self.join_all(alloc, Joint::Differ, &ones, bits)
    }
}
