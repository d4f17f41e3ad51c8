//! Lists what a party does in a half of a slot of a pattern.
ghost use Rattle.std.specs.Prelude.{◌≡◌, ◌<◌, ◌++◌, IfOk, OnOk};
ghost use Rattle.plan_model.specs.Patterns.{Occurs};
ghost use Rattle.party_program.specs.PartySteps.{steps_before, post_steps, taken_transfers, take_steps, steps_after, steps};

use crate::step::Step;
use crate::step_list::StepList;
use job_plan::{Pattern, Plan, Transfer};
use party_set::has_party;
use program_model::Half;
use std::alloc::{AllocError, Global};

/// What party `p` does in this half of a slot of this pattern.
pub(crate) fn list_steps(
    alloc: Global,
    plan: &Plan,
    p: u32,
    half: Half,
    pattern: Pattern,
) -> Result<StepList, AllocError>
    requires party { p < plan.now.parties }
    requires occurs { Occurs plan.now pattern }
    ensures { IfOk result (λ list. list ≡ steps plan.now p half pattern) }
{
    let mut list = StepList::new(alloc);
    match half {
        Half::Head => {
            push_before(plan, p, pattern, &mut list)?;
            push_posts(plan, p, pattern, &mut list)?;
        }
        Half::Tail => {
            push_takes(plan, p, pattern, &mut list)?;
            push_after(plan, p, pattern, &mut list)?;
        }
    }
    Ok(list)
}

// What p does before its posts.
fn push_before(plan: &Plan, p: u32, pattern: Pattern, list: &mut StepList) -> Result<(), AllocError>
    requires { p < plan.now.parties }
    ensures { OnOk result (list.new ≡ list.old ++ steps_before plan.now p pattern) }
{
    match pattern {
        Pattern::Silent => list.push(Step::Linear),
        Pattern::Opened(_) | Pattern::OpenedToAll | Pattern::Joined => Ok(()),
        Pattern::Held | Pattern::Received => Ok(()),
        Pattern::Dealt(dealer) => list.push_if(dealer == p, Step::Deal),
        Pattern::Multiplied => {
            if plan.multiplies(p) {
                list.push(Step::Own)?;
                list.push(Step::Deal)?;
            }
            Ok(())
        }
        Pattern::HandedOut => list.push_if(plan.least_held(p, plan.shares()) > 0, Step::Draw),
    }
}

// The posts of p.
fn push_posts(plan: &Plan, p: u32, pattern: Pattern, list: &mut StepList) -> Result<(), AllocError>
    requires { Occurs plan.now pattern }
    ensures { OnOk result (list.new ≡ list.old ++ post_steps plan.now p pattern) }
{
    plan.recall();
    let transfers = plan.transfers(pattern);
    for (place, transfer) in transfers.iter().enumerate() {
        let step = Step::Post {
            place: place as u16,
            share: transfer.share,
        };
        list.push_if(u32::from(transfer.sender) == p, step)?;
    }
    Ok(())
}

// The transfers that are taken: where a wire is received, those by which it is kept, which are not taken where it is
// kept.
fn taken_transfers(plan: &Plan, pattern: Pattern) -> &[Transfer]
    requires { Occurs plan.now pattern }
    ensures { result.now ≡ taken_transfers plan.now pattern }
{
    match pattern {
        Pattern::Held => &[],
        Pattern::Received => plan.transfers(Pattern::Held),
        _ => plan.transfers(pattern),
    }
}

// The takes of p.
fn push_takes(plan: &Plan, p: u32, pattern: Pattern, list: &mut StepList) -> Result<(), AllocError>
    requires { Occurs plan.now pattern }
    ensures { OnOk result (list.new ≡ list.old ++ take_steps plan.now p pattern) }
{
    plan.recall();
    let transfers = taken_transfers(plan, pattern);
    for (place, transfer) in transfers.iter().enumerate() {
        let step = Step::Take {
            place: place as u16,
            share: transfer.share,
        };
        list.push_if(u32::from(transfer.receiver) == p, step)?;
    }
    Ok(())
}

// What p does after its takes.
fn push_after(plan: &Plan, p: u32, pattern: Pattern, list: &mut StepList) -> Result<(), AllocError>
    requires { p < plan.now.parties }
    ensures { OnOk result (list.new ≡ list.old ++ steps_after p pattern) }
{
    plan.recall();
    match pattern {
        Pattern::Silent | Pattern::Dealt(_) | Pattern::HandedOut => Ok(()),
        Pattern::Held | Pattern::Received => Ok(()),
        Pattern::Multiplied => list.push(Step::Sum),
        Pattern::Opened(readers) => list.push_if(has_party(readers, p), Step::Deliver),
        Pattern::OpenedToAll => list.push(Step::Open),
        Pattern::Joined => list.push(Step::Join),
    }
}
