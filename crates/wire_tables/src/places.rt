//! Where the words that the parties draw next begin on their tapes.
ghost use Rattle.std.specs.Prelude.{◌≡◌, ◌+◌, ◌<◌, ◌≤◌, IfOk, length};
ghost use Rattle.plan_model.specs.Plans.{slots};
ghost use Rattle.wire_tables.specs.Places.{ArePlaces};

use crate::deals::words_in;
use job_plan::Plan;
use std::alloc::{AllocError, Global};

/// The places before the first slot of session `s`.
pub fn first_places(alloc: Global, plan: &Plan, s: u32) -> Result<Vec<u32>, AllocError>
    requires { s < length plan.now.sessions }
    ensures { IfOk result (λ places. ArePlaces plan.now s 0 places.items) }
{
    let mut places = Vec::new(alloc);
    for p in 0..plan.parties() {
        places.push(plan.tape_start(p, s))?;
    }
    Ok(places)
}

/// The places before slot `k` of session `s`.
pub(crate) fn places_before(
    alloc: Global,
    plan: &Plan,
    s: u32,
    k: u32,
) -> Result<Vec<u32>, AllocError>
    requires session { s < length plan.now.sessions }
    requires slot { k ≤ slots plan.now s }
    ensures { IfOk result (λ places. ArePlaces plan.now s k places.items) }
{
    let mut places = first_places(alloc, plan, s)?;
    for j in 0..k {
        pass_slot(plan, s, j, &mut places);
    }
    Ok(places)
}

/// Goes behind what the parties draw in slot `k` of session `s`.
pub fn pass_slot(plan: &Plan, s: u32, k: u32, places: &mut [u32])
    requires session { s < length plan.now.sessions }
    requires slot { k < slots plan.now s }
    requires places { ArePlaces plan.now s k places.old }
    ensures { ArePlaces plan.now s (k + 1) places.new }
{
    let parties = plan.parties();
    let kind = plan.part(s).slot_kind(k);
    for p in 0..parties {
        places[p as usize] += words_in(plan, s, p, kind);
    }
}
