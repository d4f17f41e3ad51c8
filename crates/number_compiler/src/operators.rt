//! The gates of operators.
ghost use Rattle.std.specs.Prelude.{◌≡◌, IfOk, Ok, Some, None, ◌∷◌, [], if◌then◌else◌};
ghost use Rattle.number_gates.specs.declared.wire.Bit.{Bit};
ghost use Rattle.number_gates.specs.Steps.{Runs};
ghost use Rattle.line_grammar.specs.declared.operator.Infix.TheVariants.{Remainder};
ghost use Rattle.number_circuit.specs.Values.{most};
ghost use Rattle.number_circuit.specs.Faults.{fits};
ghost use Rattle.number_compiler.specs.Terms.{either, both_some, unequal, at_least, operated, operator_steps, pair_steps, inverse_steps, choice_steps};
ghost use Rattle.number_compiler.specs.Seen.{seen};

use crate::number::{Number, fitted};
use line_grammar::{Infix, Pair};
use number_gates::{Bit, BitGates, copied, joined};
use std::alloc::{AllocError, Global};

/// The most that a rest is: less than the divisor, where that is a number of the text, but for 0.
fn most_rest(a: u64, b: u64, by_number: bool) -> u64
    ensures { result ≡ most Remainder a b by_number }
{
    if by_number && 0 < b { a.min(b - 1) } else { a }
}

/// The most that an operator makes, if it is below 2^64. The second operand is a number of the text or not.
pub fn most(operator: Infix, a: u64, b: u64, by_number: bool) -> Option<u64>
    ensures { result ≡ (if fits (most operator a b by_number) then Some (most operator a b by_number) else None) }
{
    match operator {
        Infix::Add => a.checked_add(b),
        Infix::Multiply => a.checked_mul(b),
        Infix::Subtract | Infix::Divide => Some(a),
        Infix::Remainder => Some(most_rest(a, b, by_number)),
        Infix::Or
        | Infix::And
        | Infix::Equal
        | Infix::Unequal
        | Infix::Less
        | Infix::AtMost
        | Infix::Greater
        | Infix::AtLeast => Some(1),
    }
}

/// A number of one bit.
fn one_bit(alloc: Global, bit: Bit) -> Result<Vec<Bit>, AllocError>
    ensures { IfOk result (λ c. c.items ≡ bit ∷ []) }
{
    Ok(vec![in alloc; bit]?)
}

/// The number of the bit that a test tells.
fn bit_of_test(alloc: Global, test: Result<Bit, AllocError>) -> Result<Vec<Bit>, AllocError>
    ensures { IfOk result (λ c. (bit : Bit) × (test ≡ Ok bit) × (c.items ≡ bit ∷ [])) }
{
    let bit = test?;
    one_bit(alloc, bit)
}

/// Whether one of both numbers isn't 0.
fn either(alloc: Global, gates: &mut BitGates, a: &[Bit], b: &[Bit]) -> Result<Bit, AllocError>
    ensures { IfOk result (λ c. Runs (either a.now b.now) gates.old c gates.new) }
{
    let all = joined(copied(alloc, a)?, b)?;
    gates.some(alloc, &all)
}

/// Whether both numbers aren't 0.
fn both(alloc: Global, gates: &mut BitGates, a: &[Bit], b: &[Bit]) -> Result<Bit, AllocError>
    ensures { IfOk result (λ c. Runs (both_some a.now b.now) gates.old c gates.new) }
{
    let first = gates.some(alloc, a)?;
    let second = gates.some(alloc, b)?;
    gates.both(first, second)
}

/// Whether the numbers differ.
fn unequal(alloc: Global, gates: &mut BitGates, a: &[Bit], b: &[Bit]) -> Result<Bit, AllocError>
    ensures { IfOk result (λ c. Runs (unequal a.now b.now) gates.old c gates.new) }
{
    let same = gates.equal(alloc, a, b)?;
    gates.opposite(same)
}

/// Whether the first number isn't less than the second.
fn at_least(alloc: Global, gates: &mut BitGates, a: &[Bit], b: &[Bit]) -> Result<Bit, AllocError>
    ensures { IfOk result (λ c. Runs (at_least a.now b.now) gates.old c gates.new) }
{
    let less = gates.less(alloc, a, b)?;
    gates.opposite(less)
}

/// The bits of what an operator makes of two numbers.
fn operated(
    alloc: Global,
    gates: &mut BitGates,
    operator: Infix,
    a: &[Bit],
    b: &[Bit],
) -> Result<Vec<Bit>, AllocError>
    ensures { IfOk result (λ c. Runs (operated operator a.now b.now) gates.old c.items gates.new) }
{
    match operator {
        Infix::Or => bit_of_test(alloc, either(alloc, gates, a, b)),
        Infix::And => bit_of_test(alloc, both(alloc, gates, a, b)),
        Infix::Equal => bit_of_test(alloc, gates.equal(alloc, a, b)),
        Infix::Unequal => bit_of_test(alloc, unequal(alloc, gates, a, b)),
        Infix::Less => bit_of_test(alloc, gates.less(alloc, a, b)),
        Infix::AtMost => bit_of_test(alloc, at_least(alloc, gates, b, a)),
        Infix::Greater => bit_of_test(alloc, gates.less(alloc, b, a)),
        Infix::AtLeast => bit_of_test(alloc, at_least(alloc, gates, a, b)),
        Infix::Add => gates.sum(alloc, a, b),
        Infix::Subtract => gates.difference(alloc, a, b),
        Infix::Multiply => gates.product(alloc, a, b),
        Infix::Divide => {
            let division = gates.divided(alloc, a, b)?;
            Ok(division.quotient)
        }
        Infix::Remainder => {
            let division = gates.divided(alloc, a, b)?;
            Ok(division.rest)
        }
    }
}

/// What an operator makes of two numbers, as a number that is `most` at most.
pub fn operator(
    alloc: Global,
    gates: &mut BitGates,
    operator: Infix,
    most: u64,
    a: &Number,
    b: &Number,
) -> Result<Number, AllocError>
    ensures { IfOk result (λ c. Runs (operator_steps operator most (seen a.now) (seen b.now)) gates.old (seen c)
        gates.new) }
{
    let bits = operated(alloc, gates, operator, &a.bits, &b.bits)?;
    fitted(alloc, most, &bits)
}

/// The less or the larger of two numbers.
pub fn pair(
    alloc: Global,
    gates: &mut BitGates,
    pair: Pair,
    a: &Number,
    b: &Number,
) -> Result<Number, AllocError>
    ensures { IfOk result (λ c. Runs (pair_steps pair (seen a.now) (seen b.now)) gates.old (seen c) gates.new) }
{
    let less = gates.less(alloc, &a.bits, &b.bits)?;
    match pair {
        Pair::Least => {
            let bits = gates.choose(alloc, less, &a.bits, &b.bits)?;
            fitted(alloc, a.most.min(b.most), &bits)
        }
        Pair::Most => {
            let bits = gates.choose(alloc, less, &b.bits, &a.bits)?;
            fitted(alloc, a.most.max(b.most), &bits)
        }
    }
}

/// 1 for 0, and 0 for any other number.
pub fn inverse(alloc: Global, gates: &mut BitGates, a: &Number) -> Result<Number, AllocError>
    ensures { IfOk result (λ c. Runs (inverse_steps (seen a.now)) gates.old (seen c) gates.new) }
{
    let some = gates.some(alloc, &a.bits)?;
    let none = gates.opposite(some)?;
    let bits = one_bit(alloc, none)?;
    fitted(alloc, 1, &bits)
}

/// The second number where the first isn't 0, and else the third.
pub fn choice(
    alloc: Global,
    gates: &mut BitGates,
    which: &Number,
    a: &Number,
    b: &Number,
) -> Result<Number, AllocError>
    ensures { IfOk result (λ c. Runs (choice_steps (seen which.now) (seen a.now) (seen b.now)) gates.old (seen c)
        gates.new) }
{
    let some = gates.some(alloc, &which.bits)?;
    let bits = gates.choose(alloc, some, &a.bits, &b.bits)?;
    fitted(alloc, a.most.max(b.most), &bits)
}
