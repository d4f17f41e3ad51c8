//! The steps of a party in heads, or in tails, for each pattern of a session's slots.
ghost use Rattle.std.specs.Prelude.{◌≡◌, ℕ, ◌<◌, IfOk, map};
ghost use Rattle.std.specs.List.{Contains};
ghost use Rattle.list_laws.specs.Lists.{listed};
ghost use Rattle.plan_model.specs.declared.pattern.Pattern.TheVariants.{Dealt, Multiplied, Opened, HandedOut, OpenedToAll, Joined};
ghost use Rattle.plan_model.specs.Patterns.{Occurs};
ghost use Rattle.party_program.specs.PartySteps.{steps};

use crate::list_steps::list_steps;
use crate::step::Step;
use crate::step_list::StepList;
use job_plan::{Pattern, Plan};
use mask_list::MaskList;
use program_model::Half;
use std::alloc::{AllocError, Global};

/// The steps of a party in the heads of a session's slots, or in their tails, for each pattern: of a linear gate, of a
/// product, of what a prepared product needs more, of a wire that is kept or received, of a value by its dealer, and of
/// an output by its readers.
#[derive(Drop)]
pub(crate) struct StepTable {
    silent: StepList,
    multiplied: StepList,
    handed_out: StepList,
    opened_to_all: StepList,
    joined: StepList,
    held: StepList,
    received: StepList,
    dealt: Vec<StepList>,
    // The groups that read an output, and by their places what the party does in an opening to each.
    readers: MaskList,
    opened: Vec<StepList>,
}

impl StepTable {
    ghost use Rattle.std.specs.Prelude.{◌≡◌, ℕ, ◌<◌, IfOk, length};
    ghost use Rattle.plan_model.specs.Plans as plans;
    ghost use Rattle.party_program.specs.PartySteps.{steps};
    ghost use Rattle.program_model.specs.declared.half.Half as halves;
    ghost use Rattle.party_program.specs.ProgramPlaces.{AreSteps, OccursIn};

    /// The steps of party `p` in this half of the slots of session `s`.
    pub(crate) fn make(
        alloc: Global,
        plan: &Plan,
        p: u32,
        s: u32,
        half: Half,
    ) -> Result<StepTable, AllocError>
        requires party { p < plan.now.parties }
        requires session { s < length plan.now.sessions }
        ensures { IfOk result (AreSteps plan.now p s half) }
    {
        let silent = list_steps(alloc, plan, p, half, Pattern::Silent)?;
        let multiplied = list_steps(alloc, plan, p, half, Pattern::Multiplied)?;
        let handed_out = list_steps(alloc, plan, p, half, Pattern::HandedOut)?;
        let opened_to_all = list_steps(alloc, plan, p, half, Pattern::OpenedToAll)?;
        let joined = list_steps(alloc, plan, p, half, Pattern::Joined)?;
        let held = list_steps(alloc, plan, p, half, Pattern::Held)?;
        let received = list_steps(alloc, plan, p, half, Pattern::Received)?;
        let dealt = deals_of_each(alloc, plan, p, half)?;
        let readers = plan.readers(alloc, s)?;
        let opened = openings_to_each(alloc, plan, p, half, readers.as_slice())?;
        Ok(StepTable {
            silent,
            multiplied,
            handed_out,
            opened_to_all,
            joined,
            held,
            received,
            dealt,
            readers,
            opened,
        })
    }

    /// What the party does in a slot of this pattern.
    #[inline(always)]
    pub(crate) fn of(&self, pattern: Pattern) -> &[Step]
        requires { (plan : plans.Plan) × (p s : ℕ) × (half : halves.Half) × AreSteps plan p s half self.now
            × OccursIn plan s pattern }
        ensures { (plan : plans.Plan) (p s : ℕ) (half : halves.Half) → AreSteps plan p s half self.now
            → OccursIn plan s pattern → result.now ≡ steps plan p half pattern }
    {
        match pattern {
            Pattern::Silent => self.silent.as_slice(),
            Pattern::Dealt(dealer) => self.deal(dealer),
            Pattern::Multiplied => self.of_product(),
            Pattern::Opened(readers) => self.opening(readers),
            Pattern::HandedOut => self.handed_out.as_slice(),
            Pattern::OpenedToAll => self.opened_to_all.as_slice(),
            Pattern::Joined => self.joined.as_slice(),
            Pattern::Held => self.held.as_slice(),
            Pattern::Received => self.received.as_slice(),
        }
    }

    /// What the party does in a slot of a product.
    pub(crate) fn of_product(&self) -> &[Step]
        ensures { (plan : plans.Plan) (p s : ℕ) (half : halves.Half) → AreSteps plan p s half self.now
            → result.now ≡ steps plan p half Multiplied }
    {
        self.multiplied.as_slice()
    }

    /// What the party does in a slot of a mask.
    pub(crate) fn of_mask(&self) -> &[Step]
        ensures { (plan : plans.Plan) (p s : ℕ) (half : halves.Half) → AreSteps plan p s half self.now
            → result.now ≡ steps plan p half HandedOut }
    {
        self.handed_out.as_slice()
    }

    /// What the party does in a slot of what is opened of a prepared product.
    pub(crate) fn of_opening(&self) -> &[Step]
        ensures { (plan : plans.Plan) (p s : ℕ) (half : halves.Half) → AreSteps plan p s half self.now
            → result.now ≡ steps plan p half OpenedToAll }
    {
        self.opened_to_all.as_slice()
    }

    /// What the party does in the own slot of a prepared product.
    pub(crate) fn of_join(&self) -> &[Step]
        ensures { (plan : plans.Plan) (p s : ℕ) (half : halves.Half) → AreSteps plan p s half self.now
            → result.now ≡ steps plan p half Joined }
    {
        self.joined.as_slice()
    }

    /// How many steps the party has in a slot of a linear gate, of a product that is dealt, or of what a prepared
    /// product needs more; of another pattern it tells nothing.
    pub(crate) fn gate_count(&self, pattern: Pattern) -> usize
        ensures { (plan : plans.Plan) (p s : ℕ) (half : halves.Half) → AreSteps plan p s half self.now → 0 < result
            → result ≡ length (steps plan p half pattern) }
    {
        match pattern {
            Pattern::Silent => self.silent.as_slice().len(),
            Pattern::Multiplied => self.of_product().len(),
            Pattern::HandedOut => self.handed_out.as_slice().len(),
            Pattern::OpenedToAll => self.opened_to_all.as_slice().len(),
            Pattern::Joined => self.joined.as_slice().len(),
            Pattern::Dealt(_) | Pattern::Opened(_) => 0,
            Pattern::Held | Pattern::Received => 0,
        }
    }

    // What the party does in a deal of this party. Deals and openings are seldom, and looked up out of line.
    #[inline(never)]
    fn deal(&self, dealer: u32) -> &[Step]
        requires { (plan : plans.Plan) × (p s : ℕ) × (half : halves.Half) × AreSteps plan p s half self.now
            × OccursIn plan s (Dealt dealer) }
        ensures { (plan : plans.Plan) (p s : ℕ) (half : halves.Half) → AreSteps plan p s half self.now
            → OccursIn plan s (Dealt dealer) → result.now ≡ steps plan p half (Dealt dealer) }
    {
        self.dealt[dealer as usize].as_slice()
    }

    // What the party does in an opening to these readers.
    #[inline(never)]
    fn opening(&self, readers: u32) -> &[Step]
        requires { (plan : plans.Plan) × (p s : ℕ) × (half : halves.Half) × AreSteps plan p s half self.now
            × OccursIn plan s (Opened readers) }
        ensures { (plan : plans.Plan) (p s : ℕ) (half : halves.Half) → AreSteps plan p s half self.now
            → OccursIn plan s (Opened readers) → result.now ≡ steps plan p half (Opened readers) }
    {
        self.opened[self.readers.place(readers)].as_slice()
    }
}

// What p does in a slot of each dealer.
fn deals_of_each(
    alloc: Global,
    plan: &Plan,
    p: u32,
    half: Half,
) -> Result<Vec<StepList>, AllocError>
    requires { p < plan.now.parties }
    ensures { IfOk result (λ list. list.items ≡ listed plan.now.parties (λ q. steps plan.now p half (Dealt q))) }
{
    let mut list = Vec::new(alloc);
    for dealer in 0..plan.parties() {
        list.push(list_steps(alloc, plan, p, half, Pattern::Dealt(dealer))?)?;
    }
    Ok(list)
}

// What p does in an opening to each of these groups.
fn openings_to_each(
    alloc: Global,
    plan: &Plan,
    p: u32,
    half: Half,
    readers: &[u32],
) -> Result<Vec<StepList>, AllocError>
    requires party { p < plan.now.parties }
    requires occur { (mask : ℕ) → Contains readers.now mask → Occurs plan.now (Opened mask) }
    ensures { IfOk result (λ list. list.items ≡ map (λ mask. steps plan.now p half (Opened mask)) readers.now) }
{
    let mut list = Vec::new(alloc);
    for mask in readers {
        list.push(list_steps(alloc, plan, p, half, Pattern::Opened(*mask))?)?;
    }
    Ok(list)
}
