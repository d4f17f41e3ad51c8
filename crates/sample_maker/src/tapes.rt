//! The tapes of a sample.
ghost use Rattle.std.specs.Prelude.{◌≡◌, ◌<◌, IfOk, length};
ghost use Rattle.list_laws.specs.Lists.{listed};
ghost use Rattle.sample_maker.specs.Samples.{sample_piece};

use job_plan::Plan;
use std::alloc::{AllocError, Global};
use tape_words::Tape;

/// A piece of tape for each party, of as many words as it draws in the plan's first session.
pub(crate) fn sample_tapes(alloc: Global, plan: &Plan) -> Result<Vec<Tape>, AllocError>
    requires { 0 < length plan.now.sessions }
    ensures { IfOk result (λ tapes. tapes.items ≡ listed plan.now.parties (sample_piece plan.now)) }
{
    let mut tapes = Vec::new(alloc);
    for party in 0..plan.parties() {
        tapes.push(sample_tape(alloc, plan, party)?)?;
    }
    Ok(tapes)
}

// The piece of one party.
fn sample_tape(alloc: Global, plan: &Plan, party: u32) -> Result<Tape, AllocError>
    requires party { party < plan.now.parties }
    requires session { 0 < length plan.now.sessions }
    ensures { IfOk result (λ tape. tape ≡ sample_piece plan.now party) }
{
    let ring = plan.ring();
    let seed = [party as u8 + 1; 32];
    Tape::from_seed(alloc, ring, &seed, 0, plan.words(party, 0))
}
