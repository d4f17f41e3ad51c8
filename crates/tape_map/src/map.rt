//! The change of tapes.
ghost use Rattle.std.specs.Prelude.{◌≡◌, ℕ, ◌<◌, ◌⊎◌, ◌++◌, Some, IfOk, IfErr, OnOk, length};
ghost use Rattle.std.specs.Prelude.{replicate, [], slice_index_or};
ghost use Rattle.plan_model.specs.Plans.{structure, place};
ghost use Rattle.plan_model.specs.InputWords.{AreInputs, InputLists, session_words};
ghost use Rattle.share_world.specs.Laws.{IsWhole, AreTapes};
ghost use Rattle.wire_tables.specs.WireTables.{value_lists, world_given, world_of};
ghost use Rattle.tape_map.specs.TapeMaps.{hidden, changed_tapes, second_world, with_inputs};
ghost use Rattle.tape_map.specs.Laws.{CanHide};
ghost use Rattle.tape_map.specs.Changes.{AreWireNumbers, Fits, grown_piece};
ghost use Rattle.tape_map.specs.MapFaults.{map_fault, HasRecipientBelow};
ghost use Rattle.tape_map.specs.declared.fault.MapFault.TheVariants.{Memory};

use crate::change::{Change, wire_growths};
use crate::fault::MapFault;
use crate::hidden_summand::hidden_summand;
use crate::inputs::input_fault;
use crate::outputs::output_fault;
use job_plan::{Inputs, Plan};
use party_set::{Group, Groups};
use std::alloc::{AllocError, Global};
use wire_tables::{CarriedRows, WorldData, value_lists};

/// The tapes with which a group sees of the other inputs what it sees of the first, exactly where the
/// group is tolerated and with both gives and reads the same. `tapes` has for each party the words
/// that it draws, all sessions in order, and so has the answer. Otherwise the first fault: of the
/// group, of the inputs by session and wire, of the outputs by session, wire and reader.
pub fn map_tapes(
    alloc: Global,
    plan: &Plan,
    inputs: &Inputs,
    tapes: &[Vec<u64>],
    other: &Inputs,
    groups: &Groups,
    group: Group,
) -> Result<Vec<Vec<u64>>, MapFault>
    requires whole { IsWhole (world_given plan.now inputs.now tapes.now) }
    requires other { AreInputs plan.now other.now }
    requires groups { groups.now ≡ structure plan.now }
    requires group { group.parties ≡ plan.now.parties }
    ensures hides { OnOk result
        (CanHide (world_given plan.now inputs.now tapes.now) other.now group.mask) }
    ensures tapes { IfOk result (λ changed. session_words changed.items
        ≡ (second_world (world_given plan.now inputs.now tapes.now) other.now group.mask).tapes) }
    ensures fault { IfErr result (λ fault. (fault ≡ Memory)
        ⊎ (map_fault (world_given plan.now inputs.now tapes.now) other.now group.mask ≡ Some fault)) }
    ensures recipient { IfErr result (HasRecipientBelow plan.now.parties) }
{
    let Some(share) = hidden_summand(groups, group) else {
        return Err(MapFault::NotTolerated);
    };
    if let Some(fault) = input_fault(alloc, plan, inputs, other, group)? {
        return Err(fault);
    }
    let first = value_lists(alloc, plan, inputs)?;
    let second = value_lists(alloc, plan, other)?;
    if let Some(fault) = output_fault(plan, group, &first, &second) {
        return Err(fault);
    }
    let world = WorldData {
        plan,
        inputs,
        tapes,
    };
    let changed = changed_tapes(alloc, &world, &first, &second, share, group)?;
    Ok(changed)
}

// The tapes of all parties, changed session by session, so that the tables of one session are there
// at a time. The wires of the sessions have these values with the inputs and with the others.
fn changed_tapes(
    alloc: Global,
    world: &WorldData<'_>,
    first: &[Vec<u64>],
    second: &[Vec<u64>],
    share: u32,
    group: Group,
) -> Result<Vec<Vec<u64>>, AllocError>
    requires whole { IsWhole (world_of world.now) }
    requires first { session_words first.now ≡ value_lists (world_of world.now) }
    requires second { AreWireNumbers world.now.plan.now (session_words second.now) }
    requires within { share < length world.now.plan.now.groups }
    requires hidden { share ≡ hidden world.now.plan.now group.mask }
    requires group { group.parties ≡ world.now.plan.now.parties }
    ensures { (other : InputLists)
        → session_words second.now ≡ value_lists (with_inputs (world_of world.now) other)
        → IfOk result (λ changed. session_words changed.items
        ≡ changed_tapes (world_of world.now) other group.mask) }
{
    let plan = world.plan;
    let mut changed = empty_tapes(alloc, plan.parties())?;
    let mut carried = CarriedRows::new(alloc, plan)?;
    for s in 0..plan.sessions() {
        let (one, another) = (&first[s as usize], &second[s as usize]);
        let growths = wire_growths(alloc, plan, s, one, another)?;
        let change = Change::make(alloc, world, &growths, &mut carried, share, s)?;
        push_pieces(plan, world.tapes, &change, group, &mut changed)?;
    }
    Ok(changed)
}

fn empty_tapes(alloc: Global, parties: u32) -> Result<Vec<Vec<u64>>, AllocError>
    ensures { IfOk result (λ tapes. session_words tapes.items ≡ replicate parties []) }
{
    let mut tapes = Vec::with_capacity(alloc, parties as usize)?;
    for _party in 0..parties {
        tapes.push(Vec::new(alloc))?;
    }
    Ok(tapes)
}

// Adds the change of each party's words of one session to its changed tape.
fn push_pieces(
    plan: &Plan,
    tapes: &[Vec<u64>],
    change: &Change,
    group: Group,
    changed: &mut [Vec<u64>],
) -> Result<(), AllocError>
    requires fits { Fits plan.now change.now }
    requires hidden { change.now.hidden ≡ hidden plan.now group.mask }
    requires share { change.now.hidden < length plan.now.groups }
    requires group { group.parties ≡ plan.now.parties }
    requires tapes { AreTapes plan.now (session_words tapes.now) }
    requires parties { length changed.old ≡ plan.now.parties }
    requires before { (p : ℕ) → p < plan.now.parties
        → length (slice_index_or (session_words changed.old) p [])
        ≡ place plan.now p change.now.session 0 }
    ensures parties { length changed.new ≡ plan.now.parties }
    ensures pieces { OnOk result ((p : ℕ) → p < plan.now.parties
        → slice_index_or (session_words changed.new) p []
        ≡ slice_index_or (session_words changed.old) p [] ++ grown_piece plan.now group.mask
        change.now (slice_index_or (session_words tapes.now) p []) p) }
{
    for p in 0..plan.parties() {
        change.push_piece(plan, group, p, &tapes[p as usize], &mut changed[p as usize])?;
    }
    Ok(())
}
