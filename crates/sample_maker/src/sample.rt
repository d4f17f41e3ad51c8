//! Samples.
ghost use Rattle.std.specs.Prelude.{◌≡◌, ◌<◌, ◌≤◌, IfOk};
ghost use Rattle.plan_model.specs.InputWords.{AreInputs};
ghost use Rattle.desk_laws.specs.Pieces.{ArePieces};
ghost use Rattle.sample_maker.specs.Samples.{sample_inputs, sample_pieces, sample_plan};

use crate::inputs::sample_inputs;
use crate::plan::sample_plan;
use crate::tapes::sample_tapes;
use job_limits::MOST_GATES;
use job_plan::{Inputs, Plan};
use std::alloc::{AllocError, Global};
use tape_words::Tape;

/// A job made from a number: its plan, its inputs, and a piece of tape for each party.
#[derive(Drop)]
pub struct Sample {
    pub plan: Plan,
    pub inputs: Inputs,
    /// The piece of party p has number p.
    pub tapes: Vec<Tape>,
}

/// The job of this number, 1 to 65,536, which is how many gates it has. The only refusal is out of memory.
pub fn make_sample(alloc: Global, count: u32) -> Result<Sample, AllocError>
    requires { (0 < count) × (count ≤ MOST_GATES) }
    ensures plan { IfOk result (λ sample. sample.plan ≡ sample_plan count) }
    ensures inputs { IfOk result (λ sample. sample.inputs ≡ sample_inputs count) }
    ensures tapes { IfOk result (λ sample. sample.tapes.items ≡ sample_pieces count) }
    ensures inputs_fit { IfOk result (λ sample. AreInputs sample.plan sample.inputs) }
    ensures pieces_fit { IfOk result (λ sample. ArePieces sample.plan sample.tapes.items) }
{
    let plan = sample_plan(alloc, count)?;
    let inputs = match sample_inputs(alloc, &plan, count) {
        Ok(inputs) => inputs,
        Err(fault) => {
            drop(plan);
            return Err(fault);
        }
    };
    let tapes = match sample_tapes(alloc, &plan) {
        Ok(tapes) => tapes,
        Err(fault) => {
            drop((inputs, plan));
            return Err(fault);
        }
    };
    Ok(Sample {
        plan,
        inputs,
        tapes,
    })
}
