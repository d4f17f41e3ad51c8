//! Lists the transfers of patterns.
ghost use Rattle.std.specs.Prelude.{◌≡◌, ◌<◌, ◌++◌, OnOk, IfOk, length};
ghost use Rattle.list_laws.specs.Lists.{joined, only_if};
ghost use Rattle.secret_sharing.specs.Schemes.{has_pair};
ghost use Rattle.party_set.specs.Parties.{has_party};
ghost use Rattle.plan_model.specs.declared.pattern.Pattern.TheVariants.{Multiplied, Opened, HandedOut, OpenedToAll, Held};
ghost use Rattle.plan_model.specs.Plans.{scheme};
ghost use Rattle.plan_model.specs.Patterns.{deal_transfer, deal_transfers, held_transfer, open_transfers, transfers};

use crate::counts::sends;
use crate::outline::Outline;
use party_set::has_party;
use plan_model::{Transfer, Transfers};
use std::alloc::{AllocError, Global};

// The transfers of a deal of p.
fn push_deal(outline: &Outline, p: u32, transfers: &mut Transfers) -> Result<(), AllocError>
    requires { p < outline.now.parties }
    ensures { OnOk result (transfers.new ≡ transfers.old ++ deal_transfers outline.now p) }
{
    for share in 0..outline.shares() {
        push_summand(outline, p, share, transfers)?;
    }
    Ok(())
}

// The transfers of one summand of a deal.
fn push_summand(
    outline: &Outline,
    p: u32,
    share: u32,
    transfers: &mut Transfers,
) -> Result<(), AllocError>
    requires sender { p < outline.now.parties }
    requires summand { share < length outline.now.groups }
    ensures { OnOk result (transfers.new
        ≡ transfers.old ++ joined outline.now.parties (deal_transfer outline.now p share)) }
{
    for receiver in 0..outline.parties() {
        let transfer = Transfer {
            share: share as u8,
            sender: p as u8,
            receiver: receiver as u8,
        };
        transfers.push_if(sends(outline, p, receiver, share), transfer)?;
    }
    Ok(())
}

// What p deals at a product.
fn push_product_of(outline: &Outline, p: u32, transfers: &mut Transfers) -> Result<(), AllocError>
    requires { p < outline.now.parties }
    ensures { OnOk result (transfers.new
        ≡ transfers.old ++ only_if (has_pair (scheme outline.now) p) (deal_transfers outline.now p)) }
{
    if outline.multiplies(p) {
        push_deal(outline, p, transfers)?;
    }
    Ok(())
}

// The transfers of an opening to r.
fn push_opening(outline: &Outline, r: u32, transfers: &mut Transfers) -> Result<(), AllocError>
    requires { r < outline.now.parties }
    ensures { OnOk result (transfers.new ≡ transfers.old ++ open_transfers outline.now r) }
{
    for share in 0..outline.shares() {
        let transfer = Transfer {
            share: share as u8,
            sender: outline.least_holder(share) as u8,
            receiver: r as u8,
        };
        transfers.push_if(!outline.holds(r, share), transfer)?;
    }
    Ok(())
}

// What is opened to r, where it is one of the readers of the mask.
fn push_opening_to(
    outline: &Outline,
    readers: u32,
    r: u32,
    transfers: &mut Transfers,
) -> Result<(), AllocError>
    requires party { r < outline.now.parties }
    requires few { r < 32 }
    ensures { OnOk result (transfers.new
        ≡ transfers.old ++ only_if (has_party readers r) (open_transfers outline.now r)) }
{
    if has_party(readers, r) {
        push_opening(outline, r, transfers)?;
    }
    Ok(())
}

/// The transfers of a deal of `p`.
pub(crate) fn dealt_transfers(
    alloc: Global,
    outline: &Outline,
    p: u32,
) -> Result<Transfers, AllocError>
    requires { p < outline.now.parties }
    ensures { IfOk result (λ made. made ≡ deal_transfers outline.now p) }
{
    let mut transfers = Transfers::new(alloc);
    push_deal(outline, p, &mut transfers)?;
    Ok(transfers)
}

/// The transfers of a product.
pub(crate) fn multiplied_transfers(
    alloc: Global,
    outline: &Outline,
) -> Result<Transfers, AllocError>
    ensures { IfOk result (λ made. made ≡ transfers outline.now Multiplied) }
{
    let mut transfers = Transfers::new(alloc);
    for p in 0..outline.parties() {
        push_product_of(outline, p, &mut transfers)?;
    }
    Ok(transfers)
}

/// The transfers of a mask.
pub(crate) fn handed_out_transfers(
    alloc: Global,
    outline: &Outline,
) -> Result<Transfers, AllocError>
    ensures { IfOk result (λ made. made ≡ transfers outline.now HandedOut) }
{
    let mut transfers = Transfers::new(alloc);
    for share in 0..outline.shares() {
        push_summand(outline, outline.least_holder(share), share, &mut transfers)?;
    }
    Ok(transfers)
}

// The transfers of one summand of a kept wire.
fn push_holders(outline: &Outline, share: u32, transfers: &mut Transfers) -> Result<(), AllocError>
    requires { share < length outline.now.groups }
    ensures { OnOk result (transfers.new
        ≡ transfers.old ++ joined outline.now.parties (held_transfer outline.now share)) }
{
    for p in 0..outline.parties() {
        let transfer = Transfer {
            share: share as u8,
            sender: p as u8,
            receiver: p as u8,
        };
        transfers.push_if(outline.holds(p, share), transfer)?;
    }
    Ok(())
}

/// The transfers of a kept wire.
pub(crate) fn held_transfers(alloc: Global, outline: &Outline) -> Result<Transfers, AllocError>
    ensures { IfOk result (λ made. made ≡ transfers outline.now Held) }
{
    let mut transfers = Transfers::new(alloc);
    for share in 0..outline.shares() {
        push_holders(outline, share, &mut transfers)?;
    }
    Ok(transfers)
}

/// The transfers of an opening to all parties.
pub(crate) fn opened_to_all_transfers(
    alloc: Global,
    outline: &Outline,
) -> Result<Transfers, AllocError>
    ensures { IfOk result (λ made. made ≡ transfers outline.now OpenedToAll) }
{
    let mut transfers = Transfers::new(alloc);
    for r in 0..outline.parties() {
        push_opening(outline, r, &mut transfers)?;
    }
    Ok(transfers)
}

/// The transfers of an opening to the readers of the mask.
pub(crate) fn opened_transfers(
    alloc: Global,
    outline: &Outline,
    readers: u32,
) -> Result<Transfers, AllocError>
    ensures { IfOk result (λ made. made ≡ transfers outline.now (Opened readers)) }
{
    let mut transfers = Transfers::new(alloc);
    for r in 0..outline.parties() {
        push_opening_to(outline, readers, r, &mut transfers)?;
    }
    Ok(transfers)
}
