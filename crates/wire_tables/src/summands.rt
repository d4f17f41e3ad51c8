//! The summands of all wires of a session, and of the masks of its prepared products.
ghost use Rattle.std.specs.Prelude.{◌≡◌, ◌<◌, [], IfOk, OnOk, length, slice_index_or};
ghost use Rattle.session_slots.specs.Sessions.{gate};
ghost use Rattle.session_slots.specs.Sessions.Slot.{At_gate, Input};
ghost use Rattle.plan_model.specs.InputWords.{session_words};
ghost use Rattle.plan_model.specs.Plans.{session, slot};
ghost use Rattle.share_world.specs.Laws.{IsWhole};
ghost use Rattle.share_world.specs.Worlds.{World};
ghost use Rattle.wire_tables.specs.WireTables.{AreCarried, world_of};
ghost use Rattle.wire_tables.specs.Steps.{AreRows, IsBeforeSlot, Sets, SetsRow};

use crate::carried::CarriedRows;
use crate::places::{first_places, pass_slot};
use crate::rows::{copy_into, deal_into, joined_into, linear_into, mask_into, product_into, zeros};
use crate::values::input_list;
use crate::world_data::WorldData;
use job_plan::{Plan, SlotKind};
use job_session::Source;
use std::alloc::{AllocError, Global};
use std::marker::Model;
use std::mem::swap;

/// The summands of all wires of a session, after all its slots, and of the masks of its prepared products. Contracts
/// see a row for each name of one.
#[derive(Drop)]
pub struct SummandTable {
    rows: Vec<Vec<u64>>,
}

impl Model for SummandTable {
    ghost use Rattle.std.specs.Prelude.{List, ℕ};
    ghost use Rattle.plan_model.specs.InputWords.{session_words};

    ghost Value = { List (List ℕ) };

    ghost view = { λ t. session_words t.rows.items };
}

impl SummandTable {
    ghost use Rattle.std.specs.Prelude.{◌≡◌, ◌+◌, ◌<◌, [], IfOk, OnOk, length, slice_index_or};
    ghost use Rattle.share_world.specs.Laws.{IsWhole};
    ghost use Rattle.wire_tables.specs.WireTables.{AreCarried, world_of, summand_rows};

    /// The summands of the wires and masks of session `s`, as the sharing equations have them. `carried` has what is
    /// carried of the sessions before, and what is carried of this one is added there.
    pub fn make(
        alloc: Global,
        world: &WorldData<'_>,
        carried: &mut CarriedRows,
        s: u32,
    ) -> Result<SummandTable, AllocError>
        requires whole { IsWhole (world_of world.now) }
        requires session { s < length world.now.plan.now.sessions }
        requires carried { AreCarried (world_of world.now) s carried.old }
        ensures table { IfOk result (λ table. table ≡ summand_rows (world_of world.now) s) }
        ensures carried { OnOk result (AreCarried (world_of world.now) (s + 1) carried.new) }
    {
        let plan = world.plan;
        let given = input_list(alloc, plan, world.inputs, s)?;
        let mut places = first_places(alloc, plan, s)?;
        let mut rows = unset_rows(alloc, plan, s)?;
        let mut dealt = Vec::new(alloc);
        let mut row = Vec::new(alloc);
        for k in 0..plan.slots(s) {
            let before = BeforeSlot {
                session: s,
                slot: k,
                given: &given,
                carried,
                places: &places,
                rows: &rows,
            };
            let name = slot_row(world, &before, &mut dealt, &mut row)?;
            if let Some(name) = name {
                swap(&mut rows[name as usize], &mut row);
            }
            pass_slot(plan, s, k, &mut places);
        }
        carried.hand_on(alloc, plan, s, &rows)?;
        Ok(SummandTable { rows })
    }

    /// The summands of the wire or the mask whose row has this name.
    pub fn row(&self, name: u32) -> &[u64]
        requires { name < length self.now }
        ensures { result.now ≡ slice_index_or self.now name [] }
    {
        &self.rows[name as usize]
    }
}

// The rows before the first slot: zeros of each wire, and no words of the masks.
fn unset_rows(alloc: Global, plan: &Plan, s: u32) -> Result<Vec<Vec<u64>>, AllocError>
    requires { s < length plan.now.sessions }
    ensures { (w : World) → w.plan ≡ plan.now → IfOk result (λ rows. AreRows w s 0 rows.items) }
{
    let part = plan.part(s);
    let shares = plan.shares() as usize;
    let mut rows = Vec::new(alloc);
    for _wire in 0..part.wires() {
        rows.push(zeros(alloc, shares)?)?;
    }
    for _mask in part.wires()..part.row_names() {
        rows.push(Vec::new(alloc))?;
    }
    Ok(rows)
}

// The row of this name.
fn row_of(rows: &[Vec<u64>], name: u32) -> &[u64]
    requires { name < length rows.now }
    ensures { result.now ≡ slice_index_or (session_words rows.now) name [] }
{
    &rows[name as usize]
}

// A slot of a session, and what is there before it: what is given on the session's inputs, what is carried of the
// sessions before, where the parties' next words begin on their tapes, and the rows that the slots before have set.
#[derive(Clone, Copy)]
struct BeforeSlot<'a> {
    session: u32,
    slot: u32,
    given: &'a [u64],
    carried: &'a CarriedRows,
    places: &'a [u32],
    rows: &'a [Vec<u64>],
}

// Sets `row` to the summands of what a slot sets, and gives the name of its row, where it sets one.
fn slot_row(
    world: &WorldData<'_>,
    before: &BeforeSlot<'_>,
    dealt: &mut Vec<u64>,
    row: &mut Vec<u64>,
) -> Result<Option<u32>, AllocError>
    requires whole { IsWhole (world_of world.now) }
    requires before { IsBeforeSlot (world_of world.now) before.now }
    ensures { IfOk result (λ name.
        Sets (world_of world.now) before.now.session before.now.slot name row.new.items) }
{
    let (places, rows) = (before.places, before.rows);
    let part = world.plan.part(before.session);
    match part.slot_kind(before.slot) {
        SlotKind::Input(v) => {
            input_row(world, before, v, row)?;
            Ok(Some(v))
        }
        SlotKind::Mask(t, side) => {
            mask_into(world, places, row)?;
            Ok(Some(part.mask_wire(t, side)))
        }
        SlotKind::MaskProduct(t) => {
            let masks = part.product_of_masks(t);
            let (a, b) = (row_of(rows, masks.first), row_of(rows, masks.second));
            product_into(world, places, a, b, dealt, row)?;
            Ok(Some(masks.output))
        }
        SlotKind::Gate(t) => {
            gate_row(world, before, t, dealt, row)?;
            Ok(Some(part.gate(t).output))
        }
        SlotKind::Masked(_, _) | SlotKind::Output(_) | SlotKind::Kept(_) => Ok(None),
    }
}

// Sets `row` to the summands of input wire `v`, whose slot this is: as its giver deals them, or those of the wire that
// it carries.
fn input_row(
    world: &WorldData<'_>,
    before: &BeforeSlot<'_>,
    v: u32,
    row: &mut Vec<u64>,
) -> Result<(), AllocError>
    requires whole { IsWhole (world_of world.now) }
    requires before { IsBeforeSlot (world_of world.now) before.now }
    requires input { slot world.now.plan.now before.now.session before.now.slot ≡ Input v }
    ensures { OnOk result
        (SetsRow (world_of world.now) before.now.session before.now.slot v row.new.items) }
{
    match world.plan.part(before.session).source(v) {
        Source::Given(party) => {
            deal_into(world, before.places, party, before.given[v as usize], row)
        }
        Source::Earlier { .. } => copy_into(before.carried.row(before.session, v), row),
    }
}

// Sets `row` to the summands of what gate `t` makes, whose slot this is.
fn gate_row(
    world: &WorldData<'_>,
    before: &BeforeSlot<'_>,
    t: u32,
    dealt: &mut Vec<u64>,
    row: &mut Vec<u64>,
) -> Result<(), AllocError>
    requires whole { IsWhole (world_of world.now) }
    requires before { IsBeforeSlot (world_of world.now) before.now }
    requires gate { slot world.now.plan.now before.now.session before.now.slot ≡ At_gate t }
    ensures { OnOk result (SetsRow (world_of world.now) before.now.session before.now.slot
        (gate (session world.now.plan.now before.now.session) t).output row.new.items) }
{
    let (plan, rows) = (world.plan, before.rows);
    let part = plan.part(before.session);
    let gate = part.gate(t);
    let (x, y) = (row_of(rows, gate.first), row_of(rows, gate.second));
    if !gate.operation.is_product() {
        return linear_into(plan.ring(), gate, x, y, row);
    }
    if !part.is_prepared() {
        return product_into(world, before.places, x, y, dealt, row);
    }
    let masks = part.product_of_masks(t);
    let (a, b) = (row_of(rows, masks.first), row_of(rows, masks.second));
    joined_into(plan, x, y, a, b, row_of(rows, masks.output), row)
}
