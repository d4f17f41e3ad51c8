//! The inputs of a sample.
ghost use Rattle.std.specs.Prelude.{◌≡◌, ◌+◌, ◌<◌, ◌≤◌, [], ◌∷◌, IfOk};
ghost use Rattle.plan_model.specs.InputWords.{session_words};
ghost use Rattle.sample_maker.specs.Samples.{sample_inputs, sample_plan, sample_word};

use job_limits::MOST_GATES;
use job_plan::{Inputs, Plan};
use std::alloc::{AllocError, Global};

/// The inputs of the sample with `count` gates, at most 65,536.
pub(crate) fn sample_inputs(alloc: Global, plan: &Plan, count: u32) -> Result<Inputs, AllocError>
    requires count { count ≤ MOST_GATES }
    requires plan { plan.now ≡ sample_plan count }
    ensures { IfOk result (λ inputs. inputs ≡ sample_inputs count) }
{
    let first = two_words(alloc, count, 0)?;
    let second = two_words(alloc, count, 2)?;
    let third = vec![in alloc; Vec::new(alloc)]?;
    let words = vec![in alloc; first, second, third]?;
    Ok(Inputs::make(plan, words))
}

// The words of this wire and the next, in the one session that there is.
fn two_words(alloc: Global, count: u32, wire: u32) -> Result<Vec<Vec<u64>>, AllocError>
    requires { wire < 4 }
    ensures { IfOk result (λ sessions. session_words sessions.items
        ≡ (sample_word count wire ∷ sample_word count (wire + 1) ∷ []) ∷ []) }
{
    let words = vec![in alloc; word(count, wire), word(count, wire + 1)]?;
    Ok(vec![in alloc; words]?)
}

fn word(count: u32, wire: u32) -> u64
    requires { wire ≤ 4 }
    ensures { result ≡ sample_word count wire }
{
    u64::from(count) * (u64::from(wire) + 1)
}
