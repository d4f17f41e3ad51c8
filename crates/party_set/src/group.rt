//! A group of parties.
ghost use Rattle.std.specs.Prelude.{◌≡◌, ℕ, ◌<◌, ◌≤◌, ◌^◌, ◌||◌, nat_eq, true, SomeIff, MatchOption};
ghost use Rattle.party_set.specs.Parties.{has_party, within, is_all, IsUnion, IsLeastOutside};

use crate::limits::MOST_PARTIES;
use crate::mask::{has_party, with_party};
use std::marker::Model;

/// A group of 1 to 12 parties, which are numbered from 0. Contracts see how many parties there are, and the mask:
/// its bit p is 1 where party p is in the group.
#[derive(Clone, Copy, Debug, PartialEq, Eq)]
pub struct Group {
    mask: u32,
    parties: u32,
}

impl Model for Group {
    ghost use Rattle.std.specs.Prelude.{◌<◌, ◌≤◌, ◌^◌};
    ghost use Rattle.party_set.specs.Parties.{Members};
    ghost use Rattle.party_set.specs.declared.limits.TheConstants.{MOST_PARTIES};

    ghost Value = { Members };

    ghost view = { λ g. record { parties = g.parties; mask = g.mask } };

    ghost invariant = { λ g. (1 ≤ g.parties) × (g.parties ≤ MOST_PARTIES) × (g.mask < 2 ^ g.parties) };

    ghost inverse = { λ g. record { mask = g.mask; parties = g.parties } };
}

impl Group {
    /// The group without a member, out of `parties` parties.
    pub fn empty(parties: u32) -> Group
        requires { (1 ≤ parties) × (parties ≤ MOST_PARTIES) }
        ensures { result ≡ record { parties = parties; mask = 0 } }
    {
        Group { mask: 0, parties }
    }

    /// The group of this mask, if each bit of it is a party's.
    pub fn of_mask(mask: u32, parties: u32) -> Option<Group>
        requires { (1 ≤ parties) × (parties ≤ MOST_PARTIES) }
        ensures { SomeIff result (mask < 2 ^ parties) (record { parties = parties; mask = mask }) }
    {
        if mask < 1 << parties {
            Some(Group { mask, parties })
        } else {
            None
        }
    }

    /// The mask: bit p is 1 where party p is in the group.
    pub fn mask(self) -> u32
        ensures is { result ≡ self.mask }
        ensures below { result < 2 ^ self.parties }
    {
        self.mask
    }

    /// How many parties there are, members or not.
    pub fn parties(self) -> u32
        ensures is { result ≡ self.parties }
        ensures some { 1 ≤ result }
        ensures few { result ≤ MOST_PARTIES }
    {
        self.parties
    }

    /// Whether the party is a member.
    pub fn has(self, p: u32) -> bool
        requires { p < self.parties }
        ensures { result ≡ has_party self.mask p }
    {
        has_party(self.mask, p)
    }

    /// The group with this party too.
    pub fn with(self, p: u32) -> Group
        requires { p < self.parties }
        ensures parties { result.parties ≡ self.parties }
        ensures members { (q : ℕ) → has_party result.mask q ≡ (has_party self.mask q || nat_eq q p) }
    {
        Group {
            mask: with_party(self.mask, p),
            parties: self.parties,
        }
    }

    /// The group of the members of both.
    pub fn union(self, g: Group) -> Group
        requires { g.parties ≡ self.parties }
        ensures parties { result.parties ≡ self.parties }
        ensures members { IsUnion self.mask g.mask result.mask }
    {
        Group {
            mask: self.mask | g.mask,
            parties: self.parties,
        }
    }

    /// Whether each member is a member of the other group.
    pub fn within(self, g: Group) -> bool
        requires { g.parties ≡ self.parties }
        ensures { result ≡ within self.parties self.mask g.mask }
    {
        self.mask | g.mask == g.mask
    }

    /// Whether each party is a member.
    pub fn is_all(self) -> bool
        ensures { result ≡ is_all self.parties self.mask }
    {
        self.mask + 1 == 1 << self.parties
    }

    /// The least party that is not a member.
    pub fn least_outside(self) -> Option<u32>
        ensures { MatchOption result (is_all self.parties self.mask ≡ true) (IsLeastOutside self.parties self.mask) }
    {
        let p = self.mask.trailing_ones();
        if p < self.parties { Some(p) } else { None }
    }
}
