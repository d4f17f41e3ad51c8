//! Opens the desks of a world.
ghost use Rattle.std.specs.Prelude.{◌≡◌, ◌<◌, ◌^◌, All, IfOk, length};
ghost use Rattle.plan_model.specs.Plans.{words};
ghost use Rattle.plan_model.specs.InputWords.{AreInputs, given};
ghost use Rattle.party_desk.specs.Desks.{IsNew};
ghost use Rattle.desk_laws.specs.Pieces.{ArePieces};
ghost use Rattle.desk_laws.specs.NewDesks.{AreNewDesks};

use job_plan::{Inputs, Plan};
use party_desk::Desk;
use std::alloc::{AllocError, Global};
use tape_words::Tape;

// A new desk of this party in this session.
fn open_desk(
    alloc: Global,
    plan: &Plan,
    inputs: &Inputs,
    party: u32,
    session: u32,
    piece: Tape,
) -> Result<Desk, AllocError>
    requires party { party < plan.now.parties }
    requires session { session < length plan.now.sessions }
    requires inputs { AreInputs plan.now inputs.now }
    requires words { All (λ word. word < 2 ^ plan.now.bits) piece }
    requires long { length piece ≡ words plan.now party session }
    ensures { IfOk result (IsNew plan.now party session (given inputs.now party session) piece) }
{
    match Desk::open(
        alloc,
        plan,
        party,
        session,
        inputs.of(party, session),
        piece,
    ) {
        Ok(desk) => Ok(desk),
        Err((e, _)) => Err(e),
    }
}

/// A new desk for each piece, in their order.
pub fn open_desks(
    alloc: Global,
    plan: &Plan,
    inputs: &Inputs,
    pieces: Vec<Tape>,
) -> Result<Vec<Desk>, AllocError>
    requires inputs { AreInputs plan.now inputs.now }
    requires pieces { ArePieces plan.now pieces.items }
    ensures { IfOk result (λ desks. (length desks.items ≡ length pieces.items)
        × AreNewDesks plan.now inputs.now pieces.items desks.items) }
{
    let parties = plan.parties();
    let mut desks = Vec::new(alloc);
    let mut k = 0;
    for piece in pieces {
        let desk = open_desk(alloc, plan, inputs, k % parties, k / parties, piece)?;
        desks.push(desk)?;
        k += 1;
    }
    Ok(desks)
}
