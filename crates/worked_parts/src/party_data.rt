//! What the files of a job's parties give, and the world that they open.
ghost use Rattle.std.specs.Prelude.{◌≡◌, ◌<◌, IfOk, All, length, map};
ghost use Rattle.plan_model.specs.InputWords.{input_words};
ghost use Rattle.core_world.specs.Moments.{IsRunOfPlan};
ghost use Rattle.party_file.specs.Forms.{form_of, FitsPlan};
ghost use Rattle.job_run.specs.Parties.{AllFit};
ghost use Rattle.job_run.specs.Pieces.{pieces_in};

use crate::product_plan::FILES;
use core_world::World;
use job_plan::{Inputs, Plan};
use party_file::{PartyData, read_party};
use std::alloc::{AllocError, Global};
use std::test::Fail;
use tape_words::Tape;

// What the party's file gives.
fn party_data(alloc: Global, plan: &Plan, p: u32, file: &str) -> Result<PartyData, Fail>
    requires { p < plan.now.parties }
    ensures { IfOk result (λ party_data. FitsPlan plan.now p (form_of party_data)) }
{
    match read_party(alloc, file.as_bytes(), &[], plan, p) {
        Ok(party_data) => Ok(party_data),
        Err(_) => Err(Fail::from("the file was refused")),
    }
}

/// What the files of all parties give, in the order of the parties.
pub fn all_data(alloc: Global, plan: &Plan, files: &[&str]) -> Result<Vec<PartyData>, Fail>
    requires { length files.now ≡ plan.now.parties }
    ensures count { IfOk result (λ all_data. length all_data.items ≡ plan.now.parties) }
    ensures fit { IfOk result (λ all_data. AllFit plan.now all_data.items) }
{
    let mut all_data = Vec::new(alloc);
    for p in 0..plan.parties() {
        all_data.push(party_data(alloc, plan, p, files[p as usize])?)?;
    }
    Ok(all_data)
}

/// The inputs by party, session and position, and each party's piece of tape for the first session.
struct FirstParts {
    inputs: Vec<Vec<Vec<u64>>>,
    pieces: Vec<Tape>,
}

fn first_parts(alloc: Global, all_data: Vec<PartyData>) -> Result<FirstParts, AllocError>
    requires { All (λ tapes. 0 < length tapes) (map (λ form. form.tapes) (map form_of all_data.items)) }
    ensures inputs { IfOk result (λ parts. input_words parts.inputs.items
        ≡ map (λ form. form.inputs) (map form_of all_data.items)) }
    ensures pieces { IfOk result (λ parts. parts.pieces.items
        ≡ pieces_in 1 (map (λ form. form.tapes) (map form_of all_data.items))) }
{
    let mut inputs = Vec::new(alloc);
    let mut pieces = Vec::new(alloc);
    for party_data in all_data {
        let PartyData {
            inputs: words,
            mut tapes,
        } = party_data;
        inputs.push(words)?;
        pieces.push(tapes.remove(0))?;
    }
    Ok(FirstParts { inputs, pieces })
}

/// The world of a job of one session, before its first step.
pub fn opened(alloc: Global, plan: &Plan, all_data: Vec<PartyData>) -> Result<World, AllocError>
    requires sessions { length plan.now.sessions ≡ 1 }
    requires count { length all_data.items ≡ plan.now.parties }
    requires fit { AllFit plan.now all_data.items }
    ensures { IfOk result (IsRunOfPlan plan.now) }
{
    let FirstParts { inputs, pieces } = first_parts(alloc, all_data)?;
    let inputs = Inputs::make(plan, inputs);
    World::open(alloc, plan, &inputs, pieces)
}

/// The world of the plan of one product, before its first step.
pub fn product_world(alloc: Global, plan: &Plan) -> Result<World, Fail>
    requires sessions { length plan.now.sessions ≡ 1 }
    requires parties { plan.now.parties ≡ 3 }
    ensures { IfOk result (IsRunOfPlan plan.now) }
{
    let all_data = all_data(alloc, plan, &FILES)?;
    Ok(opened(alloc, plan, all_data)?)
}
