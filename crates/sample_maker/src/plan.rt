//! The plan of a sample.
ghost use Rattle.std.specs.Prelude.{◌≡◌, ◌<◌, ◌≤◌, [], IfOk};
ghost use Rattle.party_set.specs.Parties.{IsQ2};
ghost use Rattle.plan_model.specs.Multiply.{three_parties};
ghost use Rattle.session_slots.specs.Carries.{CarriesFit};
ghost use Rattle.session_slots.specs.SoundSessions.{IsSoundSession};
ghost use Rattle.sample_maker.specs.Samples.{sample_plan, sample_session};

use crate::circuit::{sample_circuit, sample_ring};
use job_limits::MOST_GATES;
use job_plan::{Owner, Plan, SessionPart};
use party_set::{Groups, group_of_mask};
use plan_faults::{PartFault, PlanFault};
use product_duty::Duty;
use share_layout::Layout;
use std::alloc::{AllocError, Global};

/// The plan of the sample with `count` gates, 1 to 65,536.
pub(crate) fn sample_plan(alloc: Global, count: u32) -> Result<Plan, AllocError>
    requires { (0 < count) × (count ≤ MOST_GATES) }
    ensures { IfOk result (λ plan. plan ≡ sample_plan count) }
{
    let groups = three_groups(alloc)?;
    let layout = Layout::make(alloc, &groups)?;
    let duty = Duty::make(alloc, &groups)?;
    let parts = vec![in alloc; sample_part(alloc, count)?]?;
    match Plan::make(alloc, sample_ring(), layout, duty, parts) {
        Ok(plan) => Ok(plan),
        Err(PlanFault::Memory) => Err(AllocError),
        Err(PlanFault::TooManyMessages { .. }) => unreachable!(),
        Err(PlanFault::TooManyWords { .. }) => unreachable!(),
    }
}

// The groups of one party each, out of three.
fn three_groups(alloc: Global) -> Result<Groups, AllocError>
    ensures groups { IfOk result (λ groups. groups ≡ three_parties) }
    ensures q2 { IfOk result IsQ2 }
{
    let groups = vec![in alloc;
        group_of_mask(1, 3),
        group_of_mask(2, 3),
        group_of_mask(4, 3),
    ]?;
    Ok(Groups::of(3, groups))
}

// The session: a gives a value of two wires, b another, and all three parties read the last wire.
fn sample_part(alloc: Global, count: u32) -> Result<SessionPart, AllocError>
    requires { (0 < count) × (count ≤ MOST_GATES) }
    ensures is { IfOk result (λ part. part ≡ sample_session count) }
    ensures sound { IfOk result (IsSoundSession 3) }
    ensures fit { IfOk result (CarriesFit []) }
{
    let owners = vec![in alloc; Owner::Party(0), Owner::Party(1)]?;
    let readers = vec![in alloc; group_of_mask(7, 3)]?;
    let Ok(circuit) = sample_circuit(alloc, count) else {
        return Err(AllocError);
    };
    match SessionPart::make(alloc, circuit, owners, readers, &[]) {
        Ok(part) => Ok(part),
        Err(PartFault::Memory) => Err(AllocError),
        Err(PartFault::OwnersDiffer { .. }) => unreachable!(),
        Err(PartFault::ReadersDiffer { .. }) => unreachable!(),
        Err(PartFault::CarryMissing { .. }) => unreachable!(),
        Err(PartFault::CarryWidth { .. }) => unreachable!(),
    }
}
