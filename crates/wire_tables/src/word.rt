//! The word of one message, by definition.
ghost use Rattle.std.specs.Prelude.{◌≡◌, ◌<◌, IfOk, length};
ghost use Rattle.plan_model.specs.Messages.{messages};
ghost use Rattle.plan_model.specs.Numbers.{message};
ghost use Rattle.share_world.specs.Laws.{IsWhole};
ghost use Rattle.share_world.specs.Worlds.{word};
ghost use Rattle.wire_tables.specs.WireTables.{AreCarried, world_given, world_of};

use crate::carried::CarriedRows;
use crate::places::places_before;
use crate::sent_rows::sent_row;
use crate::slot_at::SlotAt;
use crate::summands::SummandTable;
use crate::world_data::WorldData;
use job_plan::{Inputs, Plan};
use std::alloc::{AllocError, Global};

/// The word of message `number`: a summand of what its sender deals, of a mask, of what is opened, or of a wire that is
/// kept. `tapes` has for each party the words that it draws, all sessions in order.
pub fn word_of(
    alloc: Global,
    plan: &Plan,
    inputs: &Inputs,
    tapes: &[Vec<u64>],
    number: u32,
) -> Result<u64, AllocError>
    requires whole { IsWhole (world_given plan.now inputs.now tapes.now) }
    requires number { number < length (messages plan.now) }
    ensures { IfOk result (λ found. found
        ≡ word (world_given plan.now inputs.now tapes.now) (message plan.now number)) }
{
    let world = WorldData {
        plan,
        inputs,
        tapes,
    };
    let key = plan.message(number);
    let mut carried = carried_before(alloc, &world, key.session)?;
    let table = SummandTable::make(alloc, &world, &mut carried, key.session)?;
    let places = places_before(alloc, plan, key.session, key.slot)?;
    let at = SlotAt {
        session: key.session,
        slot: key.slot,
        table: &table,
        places: &places,
    };
    let row = sent_row(alloc, &world, &at, key.sender)?;
    Ok(row[key.share as usize])
}

// What is carried of the sessions before session `s`, of which those that keep nothing need no table.
fn carried_before(alloc: Global, world: &WorldData<'_>, s: u32) -> Result<CarriedRows, AllocError>
    requires whole { IsWhole (world_of world.now) }
    requires session { s < length world.now.plan.now.sessions }
    ensures { IfOk result (AreCarried (world_of world.now) s) }
{
    let mut carried = CarriedRows::new(alloc, world.plan)?;
    for r in 0..s {
        if !world.plan.part(r).kept().is_empty() {
            let _ = SummandTable::make(alloc, world, &mut carried, r)?;
        }
    }
    Ok(carried)
}
