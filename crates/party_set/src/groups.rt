//! A list of groups.
ghost use Rattle.std.specs.Prelude.{◌≡◌, ◌<◌, ◌≤◌, All, length, map, slice_index};
ghost use Rattle.party_set.specs.Parties.{IsAntichain, Members};

use crate::group::Group;
use crate::limits::{MOST_GROUPS, MOST_PARTIES};
use std::marker::Model;

/// The maximal groups of an adversary structure (Hirt and Maurer): 1 to 64 groups of 1 to 12 parties, by rising mask,
/// none within another. The group of all parties may be one; then it is the only one.
#[derive(Drop)]
pub struct Groups {
    parties: u32,
    groups: Vec<Group>,
}

impl Model for Groups {
    ghost use Rattle.std.specs.Prelude.{◌≡◌, All, map};
    ghost use Rattle.party_set.specs.Parties.{Structure, Members, IsAntichain};

    ghost Value = { Structure };

    ghost view = { λ g. record { parties = g.parties; groups = map (λ (m : Members). m.mask) g.groups.items } };

    ghost invariant = { λ g. IsAntichain (record {
      parties = g.parties;
      groups = map (λ (m : Members). m.mask) g.groups.items;
    })
        × All (λ (m : Members). m.parties ≡ g.parties) g.groups.items };
}

impl Groups {
    /// The groups, which are of `parties` parties.
    pub fn of(parties: u32, groups: Vec<Group>) -> Groups
        requires parties { All (λ (m : Members). m.parties ≡ parties) groups.items }
        requires antichain { IsAntichain (record {
          parties = parties;
          groups = map (λ (m : Members). m.mask) groups.items;
        }) }
        ensures { result ≡ record { parties = parties; groups = map (λ (m : Members). m.mask) groups.items } }
    {
        Groups { parties, groups }
    }

    /// How many groups there are.
    pub fn len(&self) -> u32
        ensures is { result ≡ length self.now.groups }
        ensures some { 1 ≤ result }
        ensures few { result ≤ MOST_GROUPS }
    {
        self.groups.len() as u32
    }

    /// Group `i`, counted from 0.
    pub fn get(&self, i: u32) -> Group
        requires { i < length self.now.groups }
        ensures { result ≡ record { parties = self.now.parties; mask = slice_index self.now.groups i } }
    {
        self.groups[i as usize]
    }

    /// How many parties there are.
    pub fn parties(&self) -> u32
        ensures is { result ≡ self.now.parties }
        ensures some { 1 ≤ result }
        ensures few { result ≤ MOST_PARTIES }
        ensures antichain { IsAntichain self.now }
    {
        self.parties
    }
}
