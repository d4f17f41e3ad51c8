//! Gates of numbers, which are lists of bits, least first. Of two numbers the narrower one is widened by zeros;
//! the functions `.._same` are for two of one width.
ghost use Rattle.std.specs.Prelude.{◌≡◌, IfOk};
ghost use Rattle.number_gates.specs.Steps.{Runs};
ghost use Rattle.number_gates.specs.Numbers.{choose_same, choose, some, equal_same, equal, less_same, less, sum_same, sum, difference_same, difference};

use crate::bit_lists::{close, copied, front, joined, last_bit, widened};
use crate::gates::{BitGates, Joint};
use crate::wire::Bit;
use std::alloc::{AllocError, Global};

impl BitGates {
    /// The second number's bits, and where the bit is 1 those in which both differ changed.
    pub(crate) fn choose_same(
        &mut self,
        alloc: Global,
        which: Bit,
        a: &[Bit],
        b: &[Bit],
    ) -> Result<Vec<Bit>, AllocError>
        ensures { IfOk result (λ c. Runs (choose_same which a.now b.now) self.old c.items self.new) }
    {
        let differ = self.join_all(alloc, Joint::Differ, a, b)?;
        let taken = self.both_each(alloc, which, &differ)?;
        self.join_all(alloc, Joint::Differ, &taken, b)
    }

    /// The first number where the bit is 1, and else the second; as wide as the wider number.
    pub fn choose(
        &mut self,
        alloc: Global,
        which: Bit,
        a: &[Bit],
        b: &[Bit],
    ) -> Result<Vec<Bit>, AllocError>
        ensures { IfOk result (λ c. Runs (choose which a.now b.now) self.old c.items self.new) }
    {
        let width = a.len().max(b.len());
        let a = widened(alloc, width, a)?;
        let b = widened(alloc, width, b)?;
        self.choose_same(alloc, which, &a, &b)
    }

    /// Whether some bit is 1.
    pub fn some(&mut self, alloc: Global, bits: &[Bit]) -> Result<Bit, AllocError>
        ensures { IfOk result (λ c. Runs (some bits.now) self.old c self.new) }
    {
        let opposite = self.opposite_all(alloc, bits)?;
        let none = self.all(alloc, &opposite)?;
        self.opposite(none)
    }

    /// Whether no bit differs.
    fn equal_same(&mut self, alloc: Global, a: &[Bit], b: &[Bit]) -> Result<Bit, AllocError>
        ensures { IfOk result (λ c. Runs (equal_same a.now b.now) self.old c self.new) }
    {
        let opposite = self.opposite_all(alloc, a)?;
        let same = self.join_all(alloc, Joint::Differ, &opposite, b)?;
        self.all(alloc, &same)
    }

    /// Whether the numbers are the same.
    pub fn equal(&mut self, alloc: Global, a: &[Bit], b: &[Bit]) -> Result<Bit, AllocError>
        ensures { IfOk result (λ c. Runs (equal a.now b.now) self.old c self.new) }
    {
        let width = a.len().max(b.len());
        let a = widened(alloc, width, a)?;
        let b = widened(alloc, width, b)?;
        self.equal_same(alloc, &a, &b)
    }

    /// The last carry of the sum of the first number's opposite bits and the second number.
    fn less_same(&mut self, alloc: Global, a: &[Bit], b: &[Bit]) -> Result<Bit, AllocError>
        ensures { IfOk result (λ c. Runs (less_same a.now b.now) self.old c self.new) }
    {
        let opposite = self.opposite_all(alloc, a)?;
        let mut chain = self.chain(alloc, &opposite, b)?;
        close(&mut chain.propagate);
        let carry = self.total(chain.generate.len(), &chain.generate, &chain.propagate)?;
        Ok(carry.generate)
    }

    /// Whether the first number is less than the second.
    pub fn less(&mut self, alloc: Global, a: &[Bit], b: &[Bit]) -> Result<Bit, AllocError>
        ensures { IfOk result (λ c. Runs (less a.now b.now) self.old c self.new) }
    {
        let width = a.len().max(b.len());
        let a = widened(alloc, width, a)?;
        let b = widened(alloc, width, b)?;
        self.less_same(alloc, &a, &b)
    }

    /// The bits that differ, each changed where there is a carry into its position.
    pub(crate) fn sum_same(
        &mut self,
        alloc: Global,
        a: &[Bit],
        b: &[Bit],
    ) -> Result<Vec<Bit>, AllocError>
        ensures { IfOk result (λ c. Runs (sum_same a.now b.now) self.old c.items self.new) }
    {
        let chain = self.chain(alloc, a, b)?;
        let mut closed = copied(alloc, &chain.propagate)?;
        close(&mut closed);
        let carries = self.scan(alloc, chain.generate.len(), &chain.generate, &closed)?;
        let differ = joined(chain.propagate, &[Bit::Zero])?;
        let carried = joined(vec![in alloc; Bit::Zero]?, &carries.generate)?;
        self.join_all(alloc, Joint::Differ, &differ, &carried)
    }

    /// The sum, one bit wider than the wider number.
    pub fn sum(&mut self, alloc: Global, a: &[Bit], b: &[Bit]) -> Result<Vec<Bit>, AllocError>
        ensures { IfOk result (λ c. Runs (sum a.now b.now) self.old c.items self.new) }
    {
        let width = a.len().max(b.len());
        let a = widened(alloc, width, a)?;
        let b = widened(alloc, width, b)?;
        self.sum_same(alloc, &a, &b)
    }

    /// The opposite of the sum of the first number's opposite bits and the second number, or 0 where that sum
    /// has a last carry.
    fn difference_same(
        &mut self,
        alloc: Global,
        a: &[Bit],
        b: &[Bit],
    ) -> Result<Vec<Bit>, AllocError>
        ensures { IfOk result (λ c. Runs (difference_same a.now b.now) self.old c.items self.new) }
    {
        let opposite = self.opposite_all(alloc, a)?;
        let sum = self.sum_same(alloc, &opposite, b)?;
        let difference = self.opposite_all(alloc, front(&sum, a.len()))?;
        let least = self.opposite(last_bit(&sum, Bit::Zero))?;
        self.both_each(alloc, least, &difference)
    }

    /// The first number without the second, or 0 where that is larger; as wide as the wider number.
    pub fn difference(
        &mut self,
        alloc: Global,
        a: &[Bit],
        b: &[Bit],
    ) -> Result<Vec<Bit>, AllocError>
        ensures { IfOk result (λ c. Runs (difference a.now b.now) self.old c.items self.new) }
    {
        let width = a.len().max(b.len());
        let a = widened(alloc, width, a)?;
        let b = widened(alloc, width, b)?;
        self.difference_same(alloc, &a, &b)
    }
}
