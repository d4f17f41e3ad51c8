//! How many deals stand before each slot.
ghost use Rattle.std.specs.Prelude.{◌≡◌, ℕ, ◌+◌, ◌*◌, ◌<◌, ◌≤◌, true, false, IfOk, length};
ghost use Rattle.secret_sharing.specs.Schemes.{has_pair};
ghost use Rattle.plan_model.specs.Plans as plans;
ghost use Rattle.session_slots.specs.Sessions.{owners};
ghost use Rattle.session_slots.specs.SlotNumbers.{first_input, first_of_gate, prepared_before};
ghost use Rattle.plan_model.specs.Plans.{scheme, slots};
ghost use Rattle.party_program.specs.PartySteps.{deals_in_pattern};
ghost use Rattle.party_program.specs.ProgramPlaces.{AreDealsTo, AreSessionSteps, session_of, AreProductCounts, HasInSlot, HasInThree, HasInTwo};
ghost use Rattle.program_model.specs.Programs.{instructions_before};
ghost use Rattle.plan_model.specs.Numbers.{deals_before};
ghost use Rattle.list_laws.specs.Lists.{listed};

use crate::step_table::StepTable;
use job_plan::{Pattern, Plan};
use std::alloc::{AllocError, Global};

/// A party's part of a session: its steps in the heads of the session's slots, and in their tails.
#[derive(Clone, Copy)]
pub(crate) struct SessionSteps<'a> {
    pub(crate) plan: &'a Plan,
    pub(crate) party: u32,
    pub(crate) session: u32,
    pub(crate) heads: &'a StepTable,
    pub(crate) tails: &'a StepTable,
}

/// How many instructions and deals a party has in the first slots of a session.
#[derive(Clone, Copy)]
pub(crate) struct Tally {
    pub(crate) instructions: u32,
    pub(crate) deals: u32,
}

/// How many instructions a party has in each slot of what a prepared product needs, and how many deals in that of the
/// product of its masks.
#[derive(Clone, Copy)]
pub(crate) struct ProductCounts {
    pub(crate) mask: usize,
    pub(crate) product: usize,
    pub(crate) opening: usize,
    pub(crate) join: usize,
    pub(crate) deals: u32,
}

/// How many deals the party makes before each slot of the session, and how many instructions it has in all slots.
pub(crate) fn list_deals(
    alloc: Global,
    own: &SessionSteps<'_>,
) -> Result<(Vec<u32>, u32), AllocError>
    requires steps { AreSessionSteps own.now }
    ensures deals { IfOk result (λ found. found.0.items
        ≡ listed (slots own.now.plan.now own.now.session)
        (deals_before own.now.plan.now own.now.party own.now.session)) }
    ensures instructions { IfOk result (λ found. found.1
        ≡ instructions_before own.now.plan.now own.now.party own.now.session
        (slots own.now.plan.now own.now.session)) }
{
    let plan = own.plan;
    plan.recall();
    let slots = plan.slots(own.session);
    let mut list = Vec::with_capacity(alloc, slots as usize)?;
    let mut tally = Tally {
        instructions: 0,
        deals: 0,
    };
    let done = push_most(own, &mut list, &mut tally);
    push_slots(own, done, slots, &mut list, &mut tally);
    Ok((list, tally.instructions))
}

// Adds those before the slots up to the first output, and answers which slot that is.
fn push_most(own: &SessionSteps<'_>, list: &mut Vec<u32>, tally: &mut Tally) -> u32
    requires steps { AreSessionSteps own.now }
    requires before { AreDealsTo own.now 0 list.old tally.old }
    ensures there { result ≤ slots own.now.plan.now own.now.session }
    ensures added { AreDealsTo own.now result list.new tally.new }
{
    let plan = own.plan;
    plan.recall();
    let _ = plan.slots(own.session);
    let part = plan.part(own.session);
    if part.is_prepared() {
        push_prepared(own, list, tally);
        return part.first_output_slot();
    }
    let inputs = part.input_wires() as u32;
    push_slots(own, 0, inputs, list, tally);
    push_gates(own, list, tally);
    inputs + part.gates().len() as u32
}

// The same where products are prepared.
fn push_prepared(own: &SessionSteps<'_>, list: &mut Vec<u32>, tally: &mut Tally)
    requires steps { AreSessionSteps own.now }
    requires prepared { (session_of own.now).prepared ≡ true }
    requires before { AreDealsTo own.now 0 list.old tally.old }
    ensures { AreDealsTo own.now (first_of_gate (session_of own.now) (length (session_of own.now).gates))
        list.new tally.new }
{
    let plan = own.plan;
    plan.recall();
    let part = plan.part(own.session);
    let counts = count_products(own);
    push_preparation(own, counts, list, tally);
    push_slots(
        own,
        part.first_input_slot(),
        part.first_gate_slot(),
        list,
        tally,
    );
    push_prepared_gates(own, counts, list, tally);
}

// How many instructions and deals the party has in the slots of what a prepared product needs.
fn count_products(own: &SessionSteps<'_>) -> ProductCounts
    requires { AreSessionSteps own.now }
    ensures { AreProductCounts own.now result }
{
    let SessionSteps { heads, tails, .. } = *own;
    ProductCounts {
        mask: heads.of_mask().len() + tails.of_mask().len(),
        product: heads.of_product().len() + tails.of_product().len(),
        opening: heads.of_opening().len() + tails.of_opening().len(),
        join: heads.of_join().len() + tails.of_join().len(),
        deals: u32::from(own.plan.multiplies(own.party)),
    }
}

// Adds those before the slots of masks and of their products.
fn push_preparation(
    own: &SessionSteps<'_>,
    counts: ProductCounts,
    list: &mut Vec<u32>,
    tally: &mut Tally,
)
    requires steps { AreSessionSteps own.now }
    requires counts { AreProductCounts own.now counts }
    requires prepared { (session_of own.now).prepared ≡ true }
    requires before { AreDealsTo own.now 0 list.old tally.old }
    ensures { AreDealsTo own.now (first_input (session_of own.now)) list.new tally.new }
{
    own.plan.recall();
    if own.plan.part(own.session).is_ahead() {
        push_masks(own, counts, list, tally);
        push_mask_products(own, counts, list, tally);
    } else {
        push_turns(own, counts, list, tally);
    }
}

// Adds those before the slots of masks, which stand ahead of their products.
fn push_masks(own: &SessionSteps<'_>, counts: ProductCounts, list: &mut Vec<u32>, tally: &mut Tally)
    requires steps { AreSessionSteps own.now }
    requires counts { AreProductCounts own.now counts }
    requires prepared { (session_of own.now).prepared ≡ true }
    requires ahead { (session_of own.now).ahead ≡ true }
    requires before { AreDealsTo own.now 0 list.old tally.old }
    ensures { AreDealsTo own.now (2 * prepared_before (session_of own.now) (length (session_of own.now).gates))
        list.new tally.new }
{
    own.plan.recall();
    for gate in own.plan.part(own.session).gates() {
        if gate.operation.is_product() {
            push_two(own, counts.mask, list, tally);
        }
    }
}

// Adds those before the slots of the products of masks, behind all masks.
fn push_mask_products(
    own: &SessionSteps<'_>,
    counts: ProductCounts,
    list: &mut Vec<u32>,
    tally: &mut Tally,
)
    requires steps { AreSessionSteps own.now }
    requires counts { AreProductCounts own.now counts }
    requires prepared { (session_of own.now).prepared ≡ true }
    requires ahead { (session_of own.now).ahead ≡ true }
    requires before { AreDealsTo own.now (2 * prepared_before (session_of own.now) (length (session_of own.now).gates))
        list.old tally.old }
    ensures { AreDealsTo own.now (first_input (session_of own.now)) list.new tally.new }
{
    own.plan.recall();
    for gate in own.plan.part(own.session).gates() {
        if gate.operation.is_product() {
            push_slot(own, counts.product, counts.deals, list, tally);
        }
    }
}

// Adds those before the slots of masks and of their products, product by product.
fn push_turns(own: &SessionSteps<'_>, counts: ProductCounts, list: &mut Vec<u32>, tally: &mut Tally)
    requires steps { AreSessionSteps own.now }
    requires counts { AreProductCounts own.now counts }
    requires prepared { (session_of own.now).prepared ≡ true }
    requires in_turn { (session_of own.now).ahead ≡ false }
    requires before { AreDealsTo own.now 0 list.old tally.old }
    ensures { AreDealsTo own.now (first_input (session_of own.now)) list.new tally.new }
{
    own.plan.recall();
    for gate in own.plan.part(own.session).gates() {
        if gate.operation.is_product() {
            push_three(own, counts.mask, counts.product, counts.deals, list, tally);
        }
    }
}

// Adds those before the slots of gates and of what is opened for them.
fn push_prepared_gates(
    own: &SessionSteps<'_>,
    counts: ProductCounts,
    list: &mut Vec<u32>,
    tally: &mut Tally,
)
    requires steps { AreSessionSteps own.now }
    requires counts { AreProductCounts own.now counts }
    requires prepared { (session_of own.now).prepared ≡ true }
    requires before { AreDealsTo own.now (first_of_gate (session_of own.now) 0) list.old tally.old }
    ensures { AreDealsTo own.now (first_of_gate (session_of own.now) (length (session_of own.now).gates))
        list.new tally.new }
{
    own.plan.recall();
    for gate in own.plan.part(own.session).gates() {
        if gate.operation.is_product() {
            push_three(own, counts.opening, counts.join, 0, list, tally);
        } else {
            push_slot(own, 1, 0, list, tally);
        }
    }
}

// Adds those before three slots: in each of the first two the party has so many instructions and no deal, and in the
// last one so many of both.
#[inline(always)]
fn push_three(
    own: &SessionSteps<'_>,
    each: usize,
    last: usize,
    deals: u32,
    list: &mut Vec<u32>,
    tally: &mut Tally,
)
    requires steps { AreSessionSteps own.now }
    requires next { (k : ℕ) × HasInThree own.now k each last deals × AreDealsTo own.now k list.old tally.old }
    ensures { (k : ℕ) → HasInThree own.now k each last deals → AreDealsTo own.now k list.old tally.old
        → AreDealsTo own.now (k + 3) list.new tally.new }
{
    push_two(own, each, list, tally);
    push_slot(own, last, deals, list, tally);
}

// Adds those before two slots: in each the party has so many instructions and no deal.
#[inline(always)]
fn push_two(own: &SessionSteps<'_>, each: usize, list: &mut Vec<u32>, tally: &mut Tally)
    requires steps { AreSessionSteps own.now }
    requires next { (k : ℕ) × HasInTwo own.now k each × AreDealsTo own.now k list.old tally.old }
    ensures { (k : ℕ) → HasInTwo own.now k each → AreDealsTo own.now k list.old tally.old
        → AreDealsTo own.now (k + 2) list.new tally.new }
{
    push_slot(own, each, 0, list, tally);
    push_slot(own, each, 0, list, tally);
}

// Adds those before one slot, in which the party has so many instructions and deals.
#[inline(always)]
fn push_slot(
    own: &SessionSteps<'_>,
    count: usize,
    deals: u32,
    list: &mut Vec<u32>,
    tally: &mut Tally,
)
    requires steps { AreSessionSteps own.now }
    requires next { (k : ℕ) × HasInSlot own.now k count deals × AreDealsTo own.now k list.old tally.old }
    ensures { (k : ℕ) → HasInSlot own.now k count deals → AreDealsTo own.now k list.old tally.old
        → AreDealsTo own.now (k + 1) list.new tally.new }
{
    let plan = own.plan;
    plan.recall();
    let _ = plan.slots(own.session);
    list.push_reserved(tally.deals);
    tally.instructions += count as u32;
    tally.deals += deals;
}

// Adds the deals before each of the slots from this one on to that one.
fn push_slots(own: &SessionSteps<'_>, from: u32, to: u32, list: &mut Vec<u32>, tally: &mut Tally)
    requires steps { AreSessionSteps own.now }
    requires slots { (from ≤ to) × (to ≤ slots own.now.plan.now own.now.session) }
    requires before { AreDealsTo own.now from list.old tally.old }
    ensures { AreDealsTo own.now to list.new tally.new }
{
    // Read once, and not in each slot.
    let SessionSteps {
        plan,
        party,
        session,
        heads,
        tails,
    } = *own;
    plan.recall();
    let multiplies = plan.multiplies(party);
    for k in from..to {
        list.push_reserved(tally.deals);
        let pattern = plan.pattern(session, k);
        tally.instructions += (heads.of(pattern).len() + tails.of(pattern).len()) as u32;
        tally.deals += u32::from(deals_in(pattern, party, multiplies));
    }
}

// Adds those before the slots of gates, which are the most, where no product is prepared.
fn push_gates(own: &SessionSteps<'_>, list: &mut Vec<u32>, tally: &mut Tally)
    requires steps { AreSessionSteps own.now }
    requires not_prepared { (session_of own.now).prepared ≡ false }
    requires before { AreDealsTo own.now (length (owners (session_of own.now))) list.old tally.old }
    ensures { AreDealsTo own.now (length (owners (session_of own.now)) + length (session_of own.now).gates)
        list.new tally.new }
{
    let plan = own.plan;
    plan.recall();
    let deals = u32::from(plan.multiplies(own.party));
    let steps = (own.heads.of_product().len() + own.tails.of_product().len()) as u32;
    for gate in plan.part(own.session).gates() {
        list.push_reserved(tally.deals);
        if gate.operation.is_product() {
            tally.instructions += steps;
            tally.deals += deals;
        } else {
            tally.instructions += 1;
        }
    }
}

// Whether party p deals in a slot of this pattern.
fn deals_in(pattern: Pattern, p: u32, multiplies: bool) -> bool
    ensures { (plan : plans.Plan) → multiplies ≡ has_pair (scheme plan) p → result ≡ deals_in_pattern plan p pattern }
{
    match pattern {
        Pattern::Dealt(dealer) => dealer == p,
        Pattern::Multiplied => multiplies,
        Pattern::Silent | Pattern::Opened(_) => false,
        Pattern::HandedOut | Pattern::OpenedToAll | Pattern::Joined => false,
        Pattern::Held | Pattern::Received => false,
    }
}
