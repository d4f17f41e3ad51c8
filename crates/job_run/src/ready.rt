//! All desks of a job, ready for workers.
ghost use Rattle.std.specs.Prelude.{◌≡◌, ◌<◌, ◌≤◌, IfOk, length, map};
ghost use Rattle.party_file.specs.Forms.{form_of};
ghost use Rattle.desk_workers.specs.Runs.{IsReady};
ghost use Rattle.job_run.specs.Parties.{AllFit, world_of};

use crate::given::{Given, given_by};
use crate::pieces::in_order;
use desk_workers::{Ready, prepare};
use job_limits::MOST_WORKERS;
use job_plan::{Inputs, Plan};
use party_file::PartyData;
use std::alloc::{AllocError, Global};

/// All desks of a job, ready to be run by `workers`, 1 to 16. The parties stand in the order of the plan.
pub fn prepared(
    alloc: Global,
    plan: &Plan,
    parties: Vec<PartyData>,
    workers: u32,
) -> Result<Ready, AllocError>
    requires workers { (0 < workers) × (workers ≤ MOST_WORKERS) }
    requires count { length parties.items ≡ plan.now.parties }
    requires fit { AllFit plan.now parties.items }
    ensures ready { IfOk result (IsReady (world_of plan.now (map form_of parties.items))) }
    ensures workers { IfOk result (λ ready. length ready.seats.items ≡ workers) }
{
    let Given { inputs, tapes } = given_by(alloc, parties)?;
    let pieces = in_order(alloc, plan.sessions(), tapes)?;
    let inputs = Inputs::make(plan, inputs);
    prepare(alloc, plan, &inputs, pieces, workers)
}
