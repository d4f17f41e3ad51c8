//! Families that are told by a list of groups.
ghost use Rattle.std.specs.Prelude.{◌≡◌, ◌≤◌, ℕ, Bool, List, All, map};
ghost use Rattle.std.specs.List.{list_any};
ghost use Rattle.party_set.specs.Parties.{within, Members};
ghost use Rattle.maximal_groups.specs.Families.{maximal_structure, listed_structure, IsFamily, IsCoveredBy};

use crate::family::Family;
use party_set::{Group, MOST_PARTIES};
use std::marker::Model;

/// The family of the groups that lie within a group of a list, and of the empty group. Contracts see the list.
#[derive(Drop)]
pub struct Listed {
    parties: u32,
    groups: Vec<Group>,
}

impl Model for Listed {
    ghost use Rattle.std.specs.Prelude.{◌≡◌, ◌≤◌, All, map};
    ghost use Rattle.party_set.specs.Parties.{Members, Structure};
    ghost use Rattle.party_set.specs.declared.limits.TheConstants.{MOST_PARTIES};

    ghost Value = { Structure };

    ghost view = { λ l. record {
      parties = l.parties;
      groups = map (λ (m : Members). m.mask) l.groups.items;
    } };

    ghost invariant = { λ l. (1 ≤ l.parties) × (l.parties ≤ MOST_PARTIES)
        × All (λ (m : Members). m.parties ≡ l.parties) l.groups.items };
}

impl Listed {
    /// The family of `parties` parties that these groups tell. They may stand in any order, and lie within one another.
    pub fn make(parties: u32, groups: Vec<Group>) -> Listed
        requires parties { (1 ≤ parties) × (parties ≤ MOST_PARTIES) }
        requires groups { All (λ (m : Members). m.parties ≡ parties) groups.items }
        ensures { result ≡ record {
          parties = parties;
          groups = map (λ (m : Members). m.mask) groups.items;
        } }
    {
        Listed { parties, groups }
    }
}

impl Family for Listed {
    ghost use Rattle.maximal_groups.specs.Families.{is_tolerated_by};

    ghost count = { λ l. l.parties };

    ghost is_tolerated = { λ l. is_tolerated_by l.parties l.groups };

    fn parties(&self) -> u32 {
        self.parties
    }

    fn tolerated(&self, g: Group) -> bool {
        g.mask() == 0 || lies_within_any(g, &self.groups)
    }
}

fn lies_within_any(group: Group, groups: &[Group]) -> bool
    requires { All (λ (m : Members). m.parties ≡ group.parties) groups.now }
    ensures { result
        ≡ list_any (λ (m : Members). within group.parties group.mask m.mask) groups.now }
{
    groups.iter().any(|listed| group.within(*listed))
}

/// Lists of which each group is tolerated by the other list tell the same maximal groups. So a group may stand more
/// than once, and a group that lies within another may be there or not.
pub fn lists_may_differ()
    ensures { (n : ℕ) (first second : List ℕ)
        → IsCoveredBy n first second → IsCoveredBy n second first
        → listed_structure n first ≡ listed_structure n second }
{}

/// The list of a family's maximal groups tells the same maximal groups as the family.
pub fn maximal_groups_as_a_list()
    ensures { (n : ℕ) (tolerated : ℕ → Bool) → IsFamily n tolerated
        → let s = maximal_structure n tolerated in listed_structure n s.groups ≡ s }
{}
