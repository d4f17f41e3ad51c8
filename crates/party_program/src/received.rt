//! The messages by which earlier sessions keep what a session carries from them.
ghost use Rattle.std.specs.Prelude.{◌≡◌, ◌≢◌, ℕ, ◌+◌, ◌<◌, IfOk, OnOk, length};
ghost use Rattle.party_program.specs.ProgramPlaces.{AreReceived, IsListed};

use job_plan::Plan;
use std::alloc::{AllocError, Global};

/// By input wire, up to the last one that session `s` carries: the number of the first message by which the earlier
/// session keeps it, and 0 for a wire that isn't carried.
pub(crate) fn list_received(alloc: Global, plan: &Plan, s: u32) -> Result<Vec<u32>, AllocError>
    requires { s < length plan.now.sessions }
    ensures { IfOk result (λ received. AreReceived plan.now s s received.items) }
{
    let mut received = Vec::new(alloc);
    for r in 0..s {
        add_kept(plan, r, s, &mut received)?;
    }
    Ok(received)
}

// Adds what session r keeps for session s.
fn add_kept(plan: &Plan, r: u32, s: u32, received: &mut Vec<u32>) -> Result<(), AllocError>
    requires earlier { r < s }
    requires session { s < length plan.now.sessions }
    requires before { AreReceived plan.now s r received.old.items }
    ensures { OnOk result (AreReceived plan.now s (r + 1) received.new.items) }
{
    plan.recall();
    let part = plan.part(r);
    let first_kept = part.first_output_slot() + part.output_wires() as u32;
    for (place, kept) in part.kept().iter().enumerate() {
        if kept.session == s {
            let first = plan.first(r, first_kept + place as u32);
            list_for(kept.wire, first, received)?;
        }
    }
    Ok(())
}

// Lists this number for input wire v, with zeros before it where the list ends before the wire.
fn list_for(v: u32, number: u32, list: &mut Vec<u32>) -> Result<(), AllocError>
    ensures its { OnOk result (IsListed list.new.items v number) }
    ensures others { OnOk result ((w n : ℕ) → w ≢ v → IsListed list.old.items w n → IsListed list.new.items w n) }
{
    let place = v as usize;
    if list.len() <= place {
        list.resize(place + 1, 0)?;
    }
    list[place] = number;
    Ok(())
}
