//! Whose duty a pair of summands is.
ghost use Rattle.std.specs.Prelude.{◌≡◌, ℕ, ◌+◌, ◌*◌, ◌<◌, ◌≤◌, ◌&&◌, IfOk, length, slice_index, true};
ghost use Rattle.secret_sharing.specs.Schemes.{has_pair, IsScheme};
ghost use Rattle.party_set.specs.Parties.{IsAntichain, IsQ2, Structure};
ghost use Rattle.share_layout.specs.Layouts.{holds};
ghost use Rattle.product_duty.specs.Duties.{pairs_of, pairs_where, EachIsDuty};
ghost use Rattle.secret_sharing.specs.Duties.{duty, scheme_of};

use crate::pairs::Pairs;
use party_set::{Groups, MOST_GROUPS};
use std::alloc::{AllocError, Global};
use std::marker::Model;

/// Which party multiplies which pair of summands: the least party that holds both (Maurer 2006). Contracts see the
/// groups.
#[derive(Drop)]
pub struct Duty {
    parties: u32,
    groups: Vec<u32>,
    duties: Vec<u32>,
    pairs: Vec<Vec<(u8, u8)>>,
}

impl Model for Duty {
    ghost use Rattle.std.specs.Prelude.{ℕ, map};
    ghost use Rattle.std.specs.Global.{Vec};
    ghost use Rattle.party_set.specs.Parties.{Structure};
    ghost use Rattle.product_duty.specs.Duties.{IsTable};

    ghost Value = { Structure };

    ghost view = { λ d. record { parties = d.parties; groups = d.groups.items } };

    ghost invariant = { λ d. IsTable (record { parties = d.parties; groups = d.groups.items }) d.duties.items
        (map (λ (pairs : Vec (ℕ × ℕ)). pairs.items) d.pairs.items) };
}

impl Duty {
    /// The duties for these maximal groups, of which no two together are all parties.
    pub fn make(alloc: Global, groups: &Groups) -> Result<Duty, AllocError>
        requires { IsQ2 groups.now }
        ensures { IfOk result (λ made. made ≡ groups.now) }
    {
        let parties = groups.parties();
        let masks = masks_of(alloc, groups)?;
        let duties = duties_of(alloc, groups)?;
        let mut pairs = Vec::new(alloc);
        for p in 0..parties {
            pairs.push(list_of(alloc, &duties, groups.len(), p)?)?;
        }
        Ok(Duty {
            parties,
            groups: masks,
            duties,
            pairs,
        })
    }

    /// How many summands a shared value has.
    pub fn shares(&self) -> u32
        ensures is { result ≡ length self.now.groups }
        ensures some { 1 ≤ result }
        ensures few { result ≤ MOST_GROUPS }
        ensures antichain { IsAntichain self.now }
        ensures q2 { IsQ2 self.now }
    {
        self.groups.len() as u32
    }

    /// The party that multiplies summand `i` of one value by summand `j` of another: the least that holds both.
    pub fn duty(&self, i: u32, j: u32) -> u32
        requires first { i < length self.now.groups }
        requires second { j < length self.now.groups }
        ensures is { result ≡ duty self.now i j }
        ensures party { result < self.now.parties }
        ensures holds { (holds self.now result i && holds self.now result j) ≡ true }
    {
        self.duties[i as usize * self.groups.len() + j as usize]
    }

    /// Whether the party has a pair, so that it deals at each product.
    pub fn deals(&self, p: u32) -> bool
        requires { p < self.now.parties }
        ensures { (bits : ℕ) → result ≡ has_pair (scheme_of bits self.now) p }
    {
        !self.pairs[p as usize].is_empty()
    }

    /// The pairs of the party, in order of the first summand, then the second.
    pub fn pairs(&self, p: u32) -> Pairs<'_>
        requires { p < self.now.parties }
        ensures { result ≡ pairs_of self.now p }
    {
        Pairs::of(&self.pairs[p as usize])
    }
}

fn masks_of(alloc: Global, groups: &Groups) -> Result<Vec<u32>, AllocError>
    ensures { IfOk result (λ masks. masks.items ≡ groups.now.groups) }
{
    let mut masks = Vec::new(alloc);
    for i in 0..groups.len() {
        masks.push(groups.get(i).mask())?;
    }
    Ok(masks)
}

// The duty of each pair, row by row.
fn duties_of(alloc: Global, groups: &Groups) -> Result<Vec<u32>, AllocError>
    requires { IsQ2 groups.now }
    ensures size { IfOk result (λ duties. length duties.items ≡ length groups.now.groups * length groups.now.groups) }
    ensures duties { IfOk result (λ duties. (i j : ℕ) → i < length groups.now.groups → j < length groups.now.groups
        → slice_index duties.items (i * length groups.now.groups + j) ≡ duty groups.now i j) }
{
    let mut duties = Vec::new(alloc);
    for i in 0..groups.len() {
        for j in 0..groups.len() {
            let either = groups.get(i).union(groups.get(j));
            duties.push(either.least_outside().unwrap())?;
        }
    }
    Ok(duties)
}

// The pairs whose duty is `p`, in a table of `shares` rows.
fn list_of(alloc: Global, duties: &[u32], shares: u32, p: u32) -> Result<Vec<(u8, u8)>, AllocError>
    requires few { shares ≤ MOST_GROUPS }
    requires table { length duties.now ≡ shares * shares }
    ensures { IfOk result (λ list. list.items ≡ pairs_where (λ i j. slice_index duties.now (i * shares + j)) p shares) }
{
    let mut list = Vec::new(alloc);
    for i in 0..shares {
        for j in 0..shares {
            if duties[(i * shares + j) as usize] == p {
                list.push((i as u8, j as u8))?;
            }
        }
    }
    Ok(list)
}

/// Each ordered pair of summands is the duty of one party, which holds both, and stands once in all lists.
pub fn each_pair_has_one_duty()
    ensures { (s : Structure) → IsAntichain s → IsQ2 s → EachIsDuty s }
{}

/// A structure in which no two groups are all parties gives a sharing under which products can be computed.
pub fn structure_gives_a_scheme()
    ensures { (bits : ℕ) (s : Structure) → 0 < bits → IsAntichain s → IsQ2 s → IsScheme (scheme_of bits s) }
{}
