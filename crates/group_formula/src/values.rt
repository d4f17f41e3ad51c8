//! The truth of a formula, from its elements in postfix order.
ghost use Rattle.std.specs.Prelude.{◌≡◌, ◌≤◌, ◌<◌, ◌+◌, ◌∷◌, [], length, take, drop};
ghost use Rattle.party_set.specs.Parties.{has_party};
ghost use Rattle.group_formula.specs.Trees.{Tree, value};
ghost use Rattle.group_formula.specs.Postfix.{postfix};
ghost use Rattle.group_formula.specs.Values.{after_value, how_many, top};

use crate::element::FormulaElement;
use crate::limits::MOST_NODES;
use arrayvec::ArrayVec;
use party_set::{Group, has_party};
use std::marker::Model;

/// The values of at most 256 formulas, the last one first.
#[derive(Drop)]
struct Values {
    bits: ArrayVec<bool, MOST_NODES>,
}

impl Model for Values {
    ghost use Rattle.std.specs.Prelude.{List, Bool, reverse};

    ghost Value = { List Bool };

    ghost view = { λ v. reverse v.bits.items };
}

impl Values {
    fn new() -> Values
        ensures { result ≡ [] }
    {
        Values {
            bits: ArrayVec::new(),
        }
    }

    fn push(&mut self, value: bool)
        requires { length self.old < MOST_NODES }
        ensures { self.new ≡ value ∷ self.old }
    {
        self.bits.push(value);
    }

    /// Takes off the last value, or tells false where there is none.
    fn pop(&mut self) -> bool
        ensures is { result ≡ top self.old }
        ensures rest { self.new ≡ drop 1 self.old }
    {
        self.bits.pop().unwrap_or(false)
    }

    /// Takes off the last `count` values, and tells how many of them are true.
    fn pop_many(&mut self, count: usize) -> usize
        ensures is { result ≡ how_many (take count self.old) }
        ensures rest { self.new ≡ drop count self.old }
    {
        let mut found = 0;
        let mut left = count;
        while left > 0 {
            if self.pop() {
                found += 1;
            }
            left -= 1;
        }
        found
    }

    /// What an element makes of the values before it.
    fn take_element(&mut self, mask: u32, element: FormulaElement)
        requires { length self.old < MOST_NODES }
        ensures is { self.new ≡ after_value (has_party mask) element self.old }
        ensures long { length self.new ≤ length self.old + 1 }
    {
        let value = match element {
            FormulaElement::Name(party) => has(mask, party),
            FormulaElement::And => {
                let second = self.pop();
                let first = self.pop();
                first && second
            }
            FormulaElement::Or => {
                let second = self.pop();
                let first = self.pop();
                first || second
            }
            FormulaElement::AtLeast { number, parts } => number <= self.pop_many(parts),
        };
        self.push(value);
    }
}

/// Whether the party is a member of the group of this mask.
#[tactic(auto, using(crate::proofs::ElementValues::has_bit, crate::proofs::ElementValues::has_none))]
fn has(mask: u32, party: usize) -> bool
    ensures { result ≡ has_party mask party }
{
    if party >= 32 {
        return false;
    }
    has_party(mask, party as u32)
}

/// Whether the formula is true where exactly the members of the group are.
pub fn evaluate(elements: &[FormulaElement], group: Group) -> bool
    requires { length elements.now ≤ MOST_NODES }
    ensures { (t : Tree) → elements.now ≡ postfix t → result ≡ value (has_party group.mask) t }
{
    let mut values = Values::new();
    for element in elements {
        values.take_element(group.mask(), *element);
    }
    values.pop()
}
