//! Gates of quotients and rests, by long division from the highest bit down.
ghost use Rattle.std.specs.Prelude.{◌≡◌, IfOk};
ghost use Rattle.number_gates.specs.Steps.{Runs};
ghost use Rattle.number_gates.specs.Quotients.{borrowed, subtract_same, division, divide_same, divide_more, divide, divided};

use crate::bit_lists::{back, bit_at, copied, front, joined, last_bit, widened};
use crate::gates::BitGates;
use crate::wire::Bit;
use std::alloc::{AllocError, Global};

/// The bits of a difference, and whether the second number is the larger, so that they tell nothing.
#[derive(Drop)]
pub struct Borrow {
    pub bits: Vec<Bit>,
    pub less: Bit,
}

/// A quotient and a rest, each as wide as the number that is divided.
#[derive(Drop)]
pub struct Division {
    pub quotient: Vec<Bit>,
    pub rest: Vec<Bit>,
}

impl BitGates {
    /// The first number without the second, of one width, and whether the second is the larger.
    fn subtract_same(&mut self, alloc: Global, a: &[Bit], b: &[Bit]) -> Result<Borrow, AllocError>
        ensures { IfOk result (λ c. Runs (subtract_same a.now b.now) self.old (borrowed c) self.new) }
    {
        let opposite = self.opposite_all(alloc, a)?;
        let sum = self.sum_same(alloc, &opposite, b)?;
        let bits = self.opposite_all(alloc, front(&sum, a.len()))?;
        Ok(Borrow {
            bits,
            less: last_bit(&sum, Bit::Zero),
        })
    }

    /// A bit more of the quotient, and the rest for it: without the divisor where that is not larger.
    fn divide_same(
        &mut self,
        alloc: Global,
        quotient: &[Bit],
        rest: &[Bit],
        b: &[Bit],
    ) -> Result<Division, AllocError>
        ensures { IfOk result (λ c. Runs (divide_same quotient.now rest.now b.now) self.old (division c) self.new) }
    {
        let difference = self.subtract_same(alloc, rest, b)?;
        let bit = self.opposite(difference.less)?;
        let chosen = self.choose_same(alloc, difference.less, rest, &difference.bits)?;
        let longer = joined(vec![in alloc; bit]?, quotient)?;
        let rest = copied(alloc, front(&chosen, quotient.len() + 1))?;
        Ok(Division {
            quotient: longer,
            rest,
        })
    }

    /// The next lower bit of the number, put below the rest of those before it.
    fn divide_more(
        &mut self,
        alloc: Global,
        bit: Bit,
        b: &[Bit],
        high: &Division,
    ) -> Result<Division, AllocError>
        ensures { IfOk result (λ c. Runs (divide_more bit b.now (division high.now)) self.old (division c) self.new) }
    {
        let longer = joined(vec![in alloc; bit]?, &high.rest)?;
        let width = longer.len().max(b.len());
        let rest = widened(alloc, width, &longer)?;
        let by = widened(alloc, width, b)?;
        self.divide_same(alloc, &high.quotient, &rest, &by)
    }

    /// The quotient and the rest where the divisor isn't 0; by 0 each bit of the quotient is 1, and the rest is
    /// all.
    fn divide(&mut self, alloc: Global, a: &[Bit], b: &[Bit]) -> Result<Division, AllocError>
        ensures { IfOk result (λ c. Runs (divide a.now b.now) self.old (division c) self.new) }
    {
        if a.len() == 0 {
            return Ok(Division {
                quotient: Vec::new(alloc),
                rest: Vec::new(alloc),
            });
        }
        let high = self.divide(alloc, back(a, 1), b)?;
        self.divide_more(alloc, bit_at(a, 0, Bit::Zero), b, &high)
    }

    /// The quotient and the rest; by 0 a quotient of 0, and all as the rest.
    pub fn divided(&mut self, alloc: Global, a: &[Bit], b: &[Bit]) -> Result<Division, AllocError>
        ensures { IfOk result (λ c. Runs (divided a.now b.now) self.old (division c) self.new) }
    {
        let all = self.divide(alloc, a, b)?;
        let by_some = self.some(alloc, b)?;
        let quotient = self.both_each(alloc, by_some, &all.quotient)?;
        Ok(Division {
            quotient,
            rest: all.rest,
        })
    }
}
