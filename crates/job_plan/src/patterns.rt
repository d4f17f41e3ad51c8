//! The patterns of a plan.
ghost use Rattle.std.specs.Prelude.{◌≡◌, ℕ, IfOk, map};
ghost use Rattle.std.specs.List.{Contains};
ghost use Rattle.list_laws.specs.Lists.{listed};
ghost use Rattle.plan_model.specs.Patterns.{deal_transfers, transfers, IsReadBy};
ghost use Rattle.plan_model.specs.declared.pattern.Pattern.TheVariants.{Opened};

use crate::outline::Outline;
use crate::pattern_transfers::{
    dealt_transfers, handed_out_transfers, held_transfers, multiplied_transfers,
    opened_to_all_transfers, opened_transfers,
};
use crate::readers::add_readers;
use mask_list::MaskList;
use plan_model::{Pattern, Transfer, Transfers};
use std::alloc::{AllocError, Global};

/// The transfers of each pattern that the slots of a plan may have: of a product, of a mask, of an opening to all, of a
/// kept wire, of a deal of each party, and of an opening to each group that reads an output.
#[derive(Drop)]
pub(crate) struct Patterns {
    product: Transfers,
    handed_out: Transfers,
    opened_to_all: Transfers,
    held: Transfers,
    // By party.
    deals: Vec<Transfers>,
    // The groups that read an output, and by their places the transfers of an opening to each.
    readers: MaskList,
    openings: Vec<Transfers>,
}

impl Patterns {
    ghost use Rattle.std.specs.Prelude.{◌≡◌, IfOk};
    ghost use Rattle.plan_model.specs.Plans.{Plan};
    ghost use Rattle.plan_model.specs.declared.pattern.Pattern.TheVariants.{Opened};
    ghost use Rattle.plan_model.specs.Patterns.{transfers, Occurs};
    ghost use Rattle.job_plan.specs.Tables.{AreTransfers};

    pub(crate) fn make(alloc: Global, outline: &Outline) -> Result<Patterns, AllocError>
        ensures { IfOk result (AreTransfers outline.now) }
    {
        let product = multiplied_transfers(alloc, outline)?;
        let handed_out = handed_out_transfers(alloc, outline)?;
        let opened_to_all = opened_to_all_transfers(alloc, outline)?;
        let held = held_transfers(alloc, outline)?;
        let deals = deals_of_each(alloc, outline)?;
        let readers = readers_of_all(alloc, outline)?;
        let openings = openings_to_each(alloc, outline, readers.as_slice())?;
        Ok(Patterns {
            product,
            handed_out,
            opened_to_all,
            held,
            deals,
            readers,
            openings,
        })
    }

    /// The transfers of a pattern of the plan that these are of.
    pub(crate) fn transfers(&self, pattern: Pattern) -> &[Transfer]
        requires { (plan : Plan) × AreTransfers plan self.now × Occurs plan pattern }
        ensures { (plan : Plan) → AreTransfers plan self.now → Occurs plan pattern
            → result.now ≡ transfers plan pattern }
    {
        match pattern {
            Pattern::Silent | Pattern::Joined | Pattern::Received => &[],
            Pattern::Dealt(p) => self.deals[p as usize].as_slice(),
            Pattern::Multiplied => self.product.as_slice(),
            Pattern::HandedOut => self.handed_out.as_slice(),
            Pattern::OpenedToAll => self.opened_to_all.as_slice(),
            Pattern::Held => self.held.as_slice(),
            Pattern::Opened(readers) => self.opening(readers),
        }
    }

    // The transfers of an opening to these readers, in a function of its own since the others are found without a
    // search.
    #[inline(never)]
    fn opening(&self, readers: u32) -> &[Transfer]
        requires { (plan : Plan) × AreTransfers plan self.now × Occurs plan (Opened readers) }
        ensures { (plan : Plan) → AreTransfers plan self.now → Occurs plan (Opened readers)
            → result.now ≡ transfers plan (Opened readers) }
    {
        self.openings[self.readers.place(readers)].as_slice()
    }
}

// The transfers of a deal of each party.
fn deals_of_each(alloc: Global, outline: &Outline) -> Result<Vec<Transfers>, AllocError>
    ensures { IfOk result (λ made. made.items ≡ listed outline.now.parties (deal_transfers outline.now)) }
{
    let mut list = Vec::new(alloc);
    for p in 0..outline.parties() {
        list.push(dealt_transfers(alloc, outline, p)?)?;
    }
    Ok(list)
}

// The groups that read an output.
fn readers_of_all(alloc: Global, outline: &Outline) -> Result<MaskList, AllocError>
    ensures { IfOk result (λ masks. (mask : ℕ) → IsReadBy outline.now mask → Contains masks mask) }
{
    let mut masks = MaskList::new(alloc);
    for s in 0..outline.sessions() {
        add_readers(outline, s, &mut masks)?;
    }
    Ok(masks)
}

// The transfers of an opening to each of these groups.
fn openings_to_each(
    alloc: Global,
    outline: &Outline,
    readers: &[u32],
) -> Result<Vec<Transfers>, AllocError>
    ensures { IfOk result (λ made. made.items ≡ map (λ mask. transfers outline.now (Opened mask)) readers.now) }
{
    let mut list = Vec::new(alloc);
    for mask in readers {
        list.push(opened_transfers(alloc, outline, *mask)?)?;
    }
    Ok(list)
}
