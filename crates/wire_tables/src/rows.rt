//! The summands of one wire: as they are dealt or drawn, and as a gate makes them of other wires.
ghost use Rattle.std.specs.Prelude.{◌≡◌, ℕ, ◌+◌, ◌%◌, ◌^◌, ◌<◌, ◌≤◌, All, IfOk, OnOk, true, length, slice_index, take, drop, replicate};
ghost use Rattle.list_laws.specs.Lists.{listed, total};
ghost use Rattle.secret_sharing.specs.Schemes.{has_pair, local, product_summand};
ghost use Rattle.plan_model.specs.Plans.{scheme};
ghost use Rattle.secret_sharing.specs.Prepared.{prepared_summand};
ghost use Rattle.mpc_ring.specs.Differences.{difference};
ghost use Rattle.wire_tables.specs.Places.{HasDealWords, HasMaskWords, dealt_at, mask_at};
ghost use Rattle.wire_tables.specs.Steps.{IsRow};
ghost use Rattle.wire_tables.specs.WireTables.{world_of};

use crate::world_data::WorldData;
use circuit_model::Gate;
use job_plan::Plan;
use mpc_ring::Ring;
use reshare_step::{joined_summand, local_summand, own_products};
use std::alloc::{AllocError, Global};

/// The summands of a wire that is not set.
pub(crate) fn zeros(alloc: Global, shares: usize) -> Result<Vec<u64>, AllocError>
    ensures { IfOk result (λ row. row.items ≡ replicate shares 0) }
{
    vec![in alloc; 0; shares]
}

/// Sets `row` to these words.
pub(crate) fn copy_into(words: &[u64], row: &mut Vec<u64>) -> Result<(), AllocError>
    ensures { OnOk result (row.new.items ≡ words.now) }
{
    row.clear();
    row.extend_from_slice(words)
}

// So many words of a tape, from a place on.
fn words_at(tape: &[u64], at: usize, count: usize) -> &[u64]
    requires { at + count ≤ length tape.now }
    ensures { result.now ≡ take count (drop at tape.now) }
{
    &tape[at..at + count]
}

/// Sets `row` to the summands of what party `p` deals of `value`, with the words at its place: the words, and last
/// what is missing to the value (Ito, Saito, Nishizeki 1987; Maurer 2006).
pub(crate) fn deal_into(
    world: &WorldData<'_>,
    places: &[u32],
    p: u32,
    value: u64,
    row: &mut Vec<u64>,
) -> Result<(), AllocError>
    requires value { value < 2 ^ world.now.plan.now.bits }
    requires words { HasDealWords (world_of world.now) places.now p }
    ensures { OnOk result (row.new.items ≡ listed (length world.now.plan.now.groups)
        (dealt_at (world_of world.now) places.now p value)) }
{
    let (plan, tapes) = (world.plan, world.tapes);
    let ring = plan.ring();
    let at = places[p as usize] as usize;
    let words = words_at(&tapes[p as usize], at, plan.shares() as usize - 1);
    row.clear();
    row.extend_from_slice(words)?;
    row.push(ring.sub(value, ring.sum(words)))?;
    Ok(())
}

/// Sets `row` to the summands of a mask, each of which is a word of its least holder.
pub(crate) fn mask_into(
    world: &WorldData<'_>,
    places: &[u32],
    row: &mut Vec<u64>,
) -> Result<(), AllocError>
    requires { HasMaskWords (world_of world.now) places.now }
    ensures { OnOk result (row.new.items ≡ listed (length world.now.plan.now.groups)
        (mask_at (world_of world.now) places.now)) }
{
    let (plan, tapes) = (world.plan, world.tapes);
    row.clear();
    for i in 0..plan.shares() {
        let p = plan.layout().least_holder(i);
        let at = places[p as usize] as usize + plan.least_held(p, i) as usize;
        row.push(tapes[p as usize][at])?;
    }
    Ok(())
}

/// What a wire has more than its mask, summand by summand.
pub(crate) fn masked_row(
    alloc: Global,
    ring: Ring,
    x: &[u64],
    mask: &[u64],
) -> Result<Vec<u64>, AllocError>
    requires long { length x.now ≡ length mask.now }
    requires words { All (λ word. word < 2 ^ ring) x.now }
    requires more_words { All (λ word. word < 2 ^ ring) mask.now }
    ensures { IfOk result (λ row. row.items ≡ listed (length x.now) (λ i.
        difference (2 ^ ring) (slice_index x.now i) (slice_index mask.now i))) }
{
    let mut row = Vec::new(alloc);
    for i in 0..x.len() {
        row.push(ring.sub(x[i], mask[i]))?;
    }
    Ok(row)
}

// What a wire has more than its mask, as it is opened.
fn excess(ring: Ring, x: &[u64], mask: &[u64]) -> u64
    requires long { length x.now ≡ length mask.now }
    requires words { All (λ word. word < 2 ^ ring) x.now }
    requires more_words { All (λ word. word < 2 ^ ring) mask.now }
    ensures is { result ≡ total (length x.now) (λ i.
        difference (2 ^ ring) (slice_index x.now i) (slice_index mask.now i)) % 2 ^ ring }
    ensures below { result < 2 ^ ring }
{
    let mut sum = ring.zero();
    for i in 0..x.len() {
        sum = ring.add(sum, ring.sub(x[i], mask[i]));
    }
    sum
}

/// Sets `row` to the summands of the prepared product of two wires, from those of their masks and of the masks'
/// product.
pub(crate) fn joined_into(
    plan: &Plan,
    x: &[u64],
    y: &[u64],
    first: &[u64],
    second: &[u64],
    product: &[u64],
    row: &mut Vec<u64>,
) -> Result<(), AllocError>
    requires first_wire { IsRow plan.now x.now }
    requires second_wire { IsRow plan.now y.now }
    requires first_mask { IsRow plan.now first.now }
    requires second_mask { IsRow plan.now second.now }
    requires mask_product { IsRow plan.now product.now }
    ensures { OnOk result (row.new.items ≡ listed (length plan.now.groups)
        (prepared_summand (scheme plan.now) (slice_index first.now) (slice_index second.now)
        (slice_index product.now) (slice_index x.now) (slice_index y.now))) }
{
    let ring = plan.ring();
    let d = excess(ring, x, first);
    let e = excess(ring, y, second);
    row.clear();
    for i in 0..x.len() {
        row.push(joined_summand(ring, i == 0, d, e, first[i], second[i], product[i]))?;
    }
    Ok(())
}

// Adds one row to another, summand by summand.
fn add_row(ring: Ring, row: &[u64], sums: &mut [u64])
    requires long { length row.now ≡ length sums.old }
    requires words { All (λ word. word < 2 ^ ring) row.now }
    requires sums { All (λ word. word < 2 ^ ring) sums.old }
    ensures long { length sums.new ≡ length sums.old }
    ensures sums { All (λ word. word < 2 ^ ring) sums.new }
    ensures added { (i : ℕ) → i < length sums.old
        → slice_index sums.new i ≡ (slice_index sums.old i + slice_index row.now i) % 2 ^ ring }
{
    for i in 0..row.len() {
        sums[i] = ring.add(sums[i], row[i]);
    }
}

/// Sets `sums` to the summands of the product of two wires: each party deals its own product, and what is dealt is
/// added up. `dealt` holds what the last of them dealt.
pub(crate) fn product_into(
    world: &WorldData<'_>,
    places: &[u32],
    x: &[u64],
    y: &[u64],
    dealt: &mut Vec<u64>,
    sums: &mut Vec<u64>,
) -> Result<(), AllocError>
    requires first { length x.now ≡ length world.now.plan.now.groups }
    requires second { length y.now ≡ length world.now.plan.now.groups }
    requires tapes { (p : ℕ) → p < world.now.plan.now.parties → has_pair (scheme world.now.plan.now) p ≡ true
        → HasDealWords (world_of world.now) places.now p }
    ensures { OnOk result (sums.new.items ≡ listed (length world.now.plan.now.groups)
        (product_summand (scheme world.now.plan.now) (dealt_at (world_of world.now) places.now)
        (slice_index x.now) (slice_index y.now))) }
{
    let plan = world.plan;
    let ring = plan.ring();
    sums.clear();
    sums.resize(plan.shares() as usize, 0)?;
    for p in 0..plan.parties() {
        if plan.multiplies(p) {
            let own = own_products(ring, plan.duty(), p, x, y);
            deal_into(world, places, p, own, dealt)?;
            add_row(ring, dealt, sums);
        }
    }
    Ok(())
}

/// Sets `row` to the summands that a linear gate makes of those of its wires.
pub(crate) fn linear_into(
    ring: Ring,
    gate: Gate,
    x: &[u64],
    y: &[u64],
    row: &mut Vec<u64>,
) -> Result<(), AllocError>
    requires long { length x.now ≡ length y.now }
    requires words { All (λ word. word < 2 ^ ring) x.now }
    requires more_words { All (λ word. word < 2 ^ ring) y.now }
    ensures { OnOk result (row.new.items ≡ listed (length x.now) (λ i.
        local (2 ^ ring) gate.operation gate.constant i (slice_index x.now i) (slice_index y.now i))) }
{
    row.clear();
    for i in 0..x.len() {
        let a = x[i];
        let b = y[i];
        row.push(local_summand(ring, gate.operation, gate.constant, i == 0, a, b))?;
    }
    Ok(())
}
