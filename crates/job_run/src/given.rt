//! What the parties of a job give: their inputs, and their tapes.
ghost use Rattle.std.specs.Prelude.{◌≡◌, IfOk, map};
ghost use Rattle.plan_model.specs.InputWords.{input_words};
ghost use Rattle.party_file.specs.Forms.{form_of};
ghost use Rattle.job_run.specs.Pieces.{tape_words};

use party_file::PartyData;
use std::alloc::{AllocError, Global};
use tape_words::Tape;

/// The inputs by party, session and position, and the tapes by party and session.
#[derive(Drop)]
pub struct Given {
    pub inputs: Vec<Vec<Vec<u64>>>,
    pub tapes: Vec<Vec<Tape>>,
}

/// The inputs and the tapes of these parties.
pub fn given_by(alloc: Global, parties: Vec<PartyData>) -> Result<Given, AllocError>
    ensures inputs { IfOk result (λ given. input_words given.inputs.items
        ≡ map (λ party. party.inputs) (map form_of parties.items)) }
    ensures tapes { IfOk result (λ given. tape_words given.tapes.items
        ≡ map (λ party. party.tapes) (map form_of parties.items)) }
{
    let mut inputs = Vec::new(alloc);
    let mut tapes = Vec::new(alloc);
    for party in parties {
        let PartyData {
            inputs: words,
            tapes: pieces,
        } = party;
        inputs.push(words)?;
        tapes.push(pieces)?;
    }
    Ok(Given { inputs, tapes })
}
