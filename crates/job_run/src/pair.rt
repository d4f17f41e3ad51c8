//! Both runs of a pair.
ghost use Rattle.std.specs.Prelude.{◌≡◌, ◌⊎◌, Some, IfOk, IfErr, length, map};
ghost use Rattle.plan_model.specs.Plans.{structure};
ghost use Rattle.plan_model.specs.InputWords.{AreInputs};
ghost use Rattle.party_file.specs.Forms.{form_of};
ghost use Rattle.tape_map.specs.MapFaults.{map_fault};
ghost use Rattle.tape_map.specs.declared.fault.MapFault.TheVariants.{Memory};
ghost use Rattle.job_run.specs.Parties.{AllFit, world_of};
ghost use Rattle.job_run.specs.Pairs.{IsPair};

use crate::copies::{inputs_of, tapes_of};
use crate::cuts::cut_pieces;
use crate::ready::prepared;
use desk_workers::{Ready, prepare};
use job_plan::{Inputs, Plan};
use party_file::PartyData;
use party_set::{Group, Groups};
use std::alloc::Global;
use tape_map::{MapFault, map_tapes};

/// Both runs of a pair, ready for one worker each, and the tapes of the second: for each party the words that it draws,
/// all sessions in order.
#[derive(Drop)]
pub struct Pair {
    pub first: Ready,
    pub second: Ready,
    pub tapes: Vec<Vec<u64>>,
}

/// Makes both runs ready: that of these parties, which stand in the order of the plan, and that of the other inputs,
/// exactly where these can be hidden from the group. Otherwise the first fault, as the change of tapes has it. It takes
/// all memory of both runs.
pub fn pair_of(
    alloc: Global,
    plan: &Plan,
    groups: &Groups,
    group: Group,
    parties: Vec<PartyData>,
    other: &Inputs,
) -> Result<Pair, MapFault>
    requires count { length parties.items ≡ plan.now.parties }
    requires fit { AllFit plan.now parties.items }
    requires other { AreInputs plan.now other.now }
    requires groups { groups.now ≡ structure plan.now }
    requires group { group.parties ≡ plan.now.parties }
    ensures pair { IfOk result
        (IsPair (world_of plan.now (map form_of parties.items)) other.now group.mask) }
    ensures fault { IfErr result (λ fault. (fault ≡ Memory)
        ⊎ (map_fault (world_of plan.now (map form_of parties.items)) other.now group.mask ≡ Some fault)) }
{
    plan.recall();
    let inputs = inputs_of(alloc, plan, parties.as_slice())?;
    let own = tapes_of(alloc, parties.as_slice())?;
    let tapes = map_tapes(alloc, plan, &inputs, own.as_slice(), other, groups, group)?;
    let pieces = cut_pieces(alloc, plan, tapes.as_slice())?;
    let first = prepared(alloc, plan, parties, 1)?;
    let second = match prepare(alloc, plan, other, pieces, 1) {
        Ok(second) => second,
        Err(_) => {
            drop(first);
            return Err(MapFault::Memory);
        }
    };
    Ok(Pair {
        first,
        second,
        tapes,
    })
}
