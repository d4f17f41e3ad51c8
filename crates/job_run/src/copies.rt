//! Copies of what the parties of a job give: their inputs, and the words of their tapes.
ghost use Rattle.std.specs.Prelude.{◌≡◌, IfOk, length, map};
ghost use Rattle.std.specs.List.{concat};
ghost use Rattle.plan_model.specs.InputWords.{AreInputs, session_words};
ghost use Rattle.party_file.specs.Forms.{form_of};
ghost use Rattle.job_run.specs.Parties.{AllFit, world_of};

use job_plan::{Inputs, Plan};
use party_file::PartyData;
use std::alloc::{AllocError, Global};
use tape_words::Tape;

/// The inputs of these parties, which keep their own. The parties stand in the order of the plan.
pub fn inputs_of(alloc: Global, plan: &Plan, parties: &[PartyData]) -> Result<Inputs, AllocError>
    requires count { length parties.now ≡ plan.now.parties }
    requires fit { AllFit plan.now parties.now }
    ensures same { IfOk result (λ inputs. inputs ≡ (world_of plan.now (map form_of parties.now)).inputs) }
    ensures fits { IfOk result (AreInputs plan.now) }
{
    let mut inputs = Vec::with_capacity(alloc, parties.len())?;
    for party in parties {
        inputs.push(copy_of(alloc, party.inputs.as_slice())?)?;
    }
    Ok(Inputs::make(plan, inputs))
}

// A copy of a party's inputs.
fn copy_of(alloc: Global, sessions: &[Vec<u64>]) -> Result<Vec<Vec<u64>>, AllocError>
    ensures { IfOk result (λ copy. session_words copy.items ≡ session_words sessions.now) }
{
    let mut copy = Vec::with_capacity(alloc, sessions.len())?;
    for words in sessions {
        copy.push(Vec::from_slice(alloc, words.as_slice())?)?;
    }
    Ok(copy)
}

/// The words of the tape of each of these parties, all sessions in order. The parties keep their tapes.
pub fn tapes_of(alloc: Global, parties: &[PartyData]) -> Result<Vec<Vec<u64>>, AllocError>
    ensures { IfOk result (λ tapes. session_words tapes.items
        ≡ map (λ party. concat party.tapes) (map form_of parties.now)) }
{
    let mut tapes = Vec::with_capacity(alloc, parties.len())?;
    for party in parties {
        tapes.push(words_of(alloc, party.tapes.as_slice())?)?;
    }
    Ok(tapes)
}

// The words of these pieces, one piece after another.
fn words_of(alloc: Global, pieces: &[Tape]) -> Result<Vec<u64>, AllocError>
    ensures { IfOk result (λ words. words.items ≡ concat pieces.now) }
{
    let mut words = Vec::new(alloc);
    for piece in pieces {
        words.extend_from_slice(piece.copy_words(alloc)?.as_slice())?;
    }
    Ok(words)
}
