//! Whether a group's members give the same inputs.
ghost use Rattle.std.specs.Prelude.{◌≡◌, ℕ, ◌<◌, List, IfOk, length};
ghost use Rattle.list_laws.specs.Lists.{joined};
ghost use Rattle.list_laws.specs.Checks.{first_fault};
ghost use Rattle.plan_model.specs.InputWords.{AreInputs};
ghost use Rattle.tape_map.specs.MapFaults.{input_checks};

use crate::differences::{differ, member_gives};
use crate::fault::MapFault;
use job_plan::{Inputs, Plan};
use party_set::Group;
use std::alloc::{AllocError, Global};
use wire_tables::input_list;

/// The first input wire that a member gives, and on which it is to give another word.
pub(crate) fn input_fault(
    alloc: Global,
    plan: &Plan,
    inputs: &Inputs,
    other: &Inputs,
    group: Group,
) -> Result<Option<MapFault>, AllocError>
    requires inputs { AreInputs plan.now inputs.now }
    requires other { AreInputs plan.now other.now }
    requires group { group.parties ≡ plan.now.parties }
    ensures { (tapes : List (List ℕ)) → IfOk result (λ found. found
        ≡ first_fault (joined (length plan.now.sessions) (input_checks
        (record { plan = plan.now; inputs = inputs.now; tapes = tapes }) other.now group.mask))) }
{
    for s in 0..plan.sessions() {
        if let Some(fault) = session_fault(alloc, plan, inputs, other, group, s)? {
            return Ok(Some(fault));
        }
    }
    Ok(None)
}

// The first one in session `s`.
fn session_fault(
    alloc: Global,
    plan: &Plan,
    inputs: &Inputs,
    other: &Inputs,
    group: Group,
    s: u32,
) -> Result<Option<MapFault>, AllocError>
    requires inputs { AreInputs plan.now inputs.now }
    requires other { AreInputs plan.now other.now }
    requires group { group.parties ≡ plan.now.parties }
    requires session { s < length plan.now.sessions }
    ensures { (tapes : List (List ℕ)) → IfOk result (λ found. found ≡ first_fault (input_checks
        (record { plan = plan.now; inputs = inputs.now; tapes = tapes }) other.now group.mask s)) }
{
    plan.recall();
    let part = plan.part(s);
    let first = input_list(alloc, plan, inputs, s)?;
    let second = input_list(alloc, plan, other, s)?;
    for wire in 0..part.input_wires() as u32 {
        let one = first[wire as usize];
        let another = second[wire as usize];
        if differ(member_gives(group, part.source(wire)), one, another) {
            return Ok(Some(MapFault::InputDiffers {
                session: s,
                wire,
                first: one,
                second: another,
            }));
        }
    }
    Ok(None)
}
