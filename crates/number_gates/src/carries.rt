//! Carries: where each comes from, and how far it goes. All are found at once, by halves: carry-lookahead by
//! the parallel prefix of Sklansky, "Conditional-sum addition logic", 1960.
ghost use Rattle.std.specs.Prelude.{◌≡◌, IfOk};
ghost use Rattle.number_gates.specs.Steps.{Runs};
ghost use Rattle.number_gates.specs.Carries.{listed, chain, first_carry, over, total, over_all, scan, all};

use crate::bit_lists::{back, bit_at, copied, front, joined, last_bit, repeated};
use crate::gates::{BitGates, Joint};
use crate::wire::Bit;
use std::alloc::{AllocError, Global};

/// What some positions make of a carry: they generate one, or pass on the one that comes in, or neither.
#[derive(Clone, Copy)]
pub struct Carry {
    pub generate: Bit,
    pub propagate: Bit,
}

/// What each position makes of a carry.
#[derive(Drop)]
pub struct Chain {
    pub generate: Vec<Bit>,
    pub propagate: Vec<Bit>,
}

/// What the first position makes of a carry, or what none does.
fn first_carry(generate: &[Bit], propagate: &[Bit]) -> Carry
    ensures { result ≡ first_carry generate.now propagate.now }
{
    Carry {
        generate: bit_at(generate, 0, Bit::Zero),
        propagate: bit_at(propagate, 0, Bit::One),
    }
}

/// A copy of what each position makes of a carry.
fn copied_chain(alloc: Global, generate: &[Bit], propagate: &[Bit]) -> Result<Chain, AllocError>
    ensures { IfOk result (λ c. listed c ≡ record { generate = generate.now; propagate = propagate.now }) }
{
    Ok(Chain {
        generate: copied(alloc, generate)?,
        propagate: copied(alloc, propagate)?,
    })
}

impl BitGates {
    /// What the positions of a sum make of a carry.
    pub(crate) fn chain(&mut self, alloc: Global, a: &[Bit], b: &[Bit]) -> Result<Chain, AllocError>
        ensures { IfOk result (λ c. Runs (chain a.now b.now) self.old (listed c) self.new) }
    {
        let generate = self.join_all(alloc, Joint::Both, a, b)?;
        let propagate = self.join_all(alloc, Joint::Differ, a, b)?;
        Ok(Chain {
            generate,
            propagate,
        })
    }

    /// What low and then high positions make of a carry.
    fn over(&mut self, low: Carry, high: Carry) -> Result<Carry, AllocError>
        ensures { IfOk result (λ c. Runs (over low high) self.old c self.new) }
    {
        let passed = self.both(high.propagate, low.generate)?;
        let generate = self.differ(high.generate, passed)?;
        let propagate = self.both(high.propagate, low.propagate)?;
        Ok(Carry {
            generate,
            propagate,
        })
    }

    /// What all positions together make of a carry, by halves, at most `depth` times one in another.
    pub(crate) fn total(
        &mut self,
        depth: usize,
        generate: &[Bit],
        propagate: &[Bit],
    ) -> Result<Carry, AllocError>
        ensures { IfOk result (λ c. Runs (total depth generate.now propagate.now) self.old c self.new) }
    {
        if depth == 0 {
            return Ok(first_carry(generate, propagate));
        }
        if generate.len() < 2 {
            return Ok(first_carry(generate, propagate));
        }
        let half = generate.len() / 2;
        let low = self.total(depth - 1, front(generate, half), front(propagate, half))?;
        let high = self.total(depth - 1, back(generate, half), back(propagate, half))?;
        self.over(low, high)
    }

    /// What the positions up to each one make of a carry, where low ones come before high ones.
    fn over_all(&mut self, alloc: Global, low: Chain, high: &Chain) -> Result<Chain, AllocError>
        ensures { IfOk result (λ c. Runs (over_all (listed low) (listed high.now)) self.old (listed c) self.new) }
    {
        let generated = last_bit(&low.generate, Bit::Zero);
        let passed = self.both_each(alloc, generated, &high.propagate)?;
        let generate = self.join_all(alloc, Joint::Differ, &high.generate, &passed)?;
        let propagated = last_bit(&low.propagate, Bit::One);
        let propagate = self.both_each(alloc, propagated, &high.propagate)?;
        Ok(Chain {
            generate: joined(low.generate, &generate)?,
            propagate: joined(low.propagate, &propagate)?,
        })
    }

    /// What the positions up to each one make of a carry, by halves, at most `depth` times one in another.
    pub(crate) fn scan(
        &mut self,
        alloc: Global,
        depth: usize,
        generate: &[Bit],
        propagate: &[Bit],
    ) -> Result<Chain, AllocError>
        ensures { IfOk result (λ c. Runs (scan depth generate.now propagate.now) self.old (listed c) self.new) }
    {
        if depth == 0 {
            return copied_chain(alloc, generate, propagate);
        }
        if generate.len() < 2 {
            return copied_chain(alloc, generate, propagate);
        }
        let half = generate.len() / 2;
        let low = self.scan(
            alloc,
            depth - 1,
            front(generate, half),
            front(propagate, half),
        )?;
        let high = self.scan(
            alloc,
            depth - 1,
            back(generate, half),
            back(propagate, half),
        )?;
        self.over_all(alloc, low, &high)
    }

    /// Whether all bits are 1.
    pub(crate) fn all(&mut self, alloc: Global, bits: &[Bit]) -> Result<Bit, AllocError>
        ensures { IfOk result (λ c. Runs (all bits.now) self.old c self.new) }
    {
        let none = repeated(alloc, Bit::Zero, bits.len())?;
        let carry = self.total(bits.len(), &none, bits)?;
        Ok(carry.propagate)
    }
}
