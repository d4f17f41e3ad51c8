//! The layout of the summands.
ghost use Rattle.std.specs.Prelude.{◌≡◌, ◌<◌, ◌≤◌, IfOk, length, true};
ghost use Rattle.party_set.specs.Parties.{IsAntichain, IsQ2, Structure};
ghost use Rattle.share_layout.specs.Layouts.{holds, least_holder, EachIsHeld};

use party_set::{Groups, MOST_GROUPS, MOST_PARTIES, has_party};
use std::alloc::{AllocError, Global};
use std::marker::Model;

/// Who holds which summand of a shared value: one summand for each maximal group, held by every party outside that
/// group (Ito, Saito, Nishizeki 1987). Contracts see the groups.
#[derive(Drop)]
pub struct Layout {
    parties: u32,
    groups: Vec<u32>,
    least_holders: Vec<u32>,
}

impl Model for Layout {
    ghost use Rattle.party_set.specs.Parties.{Structure};
    ghost use Rattle.share_layout.specs.Layouts.{IsLayout};

    ghost Value = { Structure };

    ghost view = { λ l. record { parties = l.parties; groups = l.groups.items } };

    ghost invariant = { λ l. IsLayout (record { parties = l.parties; groups = l.groups.items }) l.least_holders.items };
}

impl Layout {
    /// The layout for these maximal groups, of which no two together are all parties.
    pub fn make(alloc: Global, groups: &Groups) -> Result<Layout, AllocError>
        requires { IsQ2 groups.now }
        ensures { IfOk result (λ layout. layout ≡ groups.now) }
    {
        let parties = groups.parties();
        let mut masks = Vec::new(alloc);
        let mut least_holders = Vec::new(alloc);
        for i in 0..groups.len() {
            let group = groups.get(i);
            masks.push(group.mask())?;
            least_holders.push(group.least_outside().unwrap())?;
        }
        Ok(Layout {
            parties,
            groups: masks,
            least_holders,
        })
    }

    /// How many parties there are.
    pub fn parties(&self) -> u32
        ensures is { result ≡ self.now.parties }
        ensures some { 1 ≤ result }
        ensures few { result ≤ MOST_PARTIES }
        ensures antichain { IsAntichain self.now }
    {
        self.parties
    }

    /// How many summands a shared value has.
    pub fn shares(&self) -> u32
        ensures is { result ≡ length self.now.groups }
        ensures some { 1 ≤ result }
        ensures few { result ≤ MOST_GROUPS }
    {
        self.groups.len() as u32
    }

    /// Whether party `p` holds summand `i`, both counted from 0.
    pub fn holds(&self, p: u32, i: u32) -> bool
        requires party { p < self.now.parties }
        requires summand { i < length self.now.groups }
        ensures { result ≡ holds self.now p i }
    {
        !has_party(self.groups[i as usize], p)
    }

    /// The least party that holds summand `i`.
    pub fn least_holder(&self, i: u32) -> u32
        requires { i < length self.now.groups }
        ensures is { result ≡ least_holder self.now i }
        ensures party { result < self.now.parties }
        ensures holds { holds self.now result i ≡ true }
    {
        self.least_holders[i as usize]
    }
}

/// Each summand has a holder.
pub fn each_summand_is_held()
    ensures { (s : Structure) → IsQ2 s → EachIsHeld s }
{}
