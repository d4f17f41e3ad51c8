//! Formulas as families of tolerated groups.
ghost use Rattle.std.specs.Prelude.{◌≡◌, ◌-◌, ◌^◌, ◌≤◌, true};
ghost use Rattle.party_set.specs.Parties.{has_party};
ghost use Rattle.group_formula.specs.Trees.{value, is_tolerated, IsSoundTree, Meaning};
ghost use Rattle.group_formula.specs.Postfix.{tree_of, WritesFormula};

use crate::element::FormulaElement;
use crate::values::evaluate;
use maximal_groups::Family;
use party_set::{Group, MOST_PARTIES};
use std::marker::Model;

/// A monotone formula over 1 to 12 parties, which tells what groups are qualified. Contracts see the number of
/// parties and the tree of the formula.
#[derive(Drop)]
pub struct Formula {
    parties: u32,
    elements: Vec<FormulaElement>,
}

impl Model for Formula {
    ghost use Rattle.group_formula.specs.Trees.{Meaning};
    ghost use Rattle.group_formula.specs.Postfix.{tree_of, WritesFormula};
    ghost use Rattle.group_formula.specs.Stored.{formula_coded};

    ghost Value = { Meaning };

    ghost coded = { formula_coded };

    ghost view = { λ f. record { parties = f.parties; tree = tree_of f.elements.items } };

    ghost invariant = { λ f. WritesFormula f.parties f.elements.items };
}

impl Formula {
    /// The formula whose elements stand in postfix order.
    pub(crate) fn of(parties: u32, elements: Vec<FormulaElement>) -> Formula
        requires { WritesFormula parties elements.items }
        ensures { result ≡ record { parties = parties; tree = tree_of elements.items } }
    {
        Formula { parties, elements }
    }

    /// How many parties there are.
    pub fn parties(&self) -> u32
        ensures is { result ≡ self.now.parties }
        ensures some { 1 ≤ result }
        ensures few { result ≤ MOST_PARTIES }
    {
        self.parties
    }

    /// Whether the formula is true where exactly the names of the group's members are.
    pub fn qualified(&self, g: Group) -> bool
        requires { g.parties ≡ self.now.parties }
        ensures { result ≡ value (has_party g.mask) self.now.tree }
    {
        evaluate(&self.elements, g)
    }
}

impl Family for Formula {
    ghost count = { λ f. f.parties };

    ghost is_tolerated = { is_tolerated };

    fn parties(&self) -> u32 {
        self.parties
    }

    fn tolerated(&self, g: Group) -> bool {
        !self.qualified(g)
    }
}

/// A formula is true where every name is, since it has no negation: the group of all parties is never tolerated.
pub fn all_parties_are_qualified()
    ensures { (f : Meaning) → IsSoundTree f.parties f.tree
        → value (has_party (2 ^ f.parties - 1)) f.tree ≡ true }
{}
