//! Tapes that are cut into the pieces of the desks.
ghost use Rattle.std.specs.Prelude.{◌≡◌, ◌<◌, ◌^◌, All, IfOk, drop, length, take};
ghost use Rattle.plan_model.specs.InputWords.{session_words};
ghost use Rattle.plan_model.specs.Plans.{place, words};
ghost use Rattle.plan_model.specs.Tallies.{tape_length};
ghost use Rattle.share_world.specs.Laws.{AreTapes};
ghost use Rattle.desk_laws.specs.Pieces.{ArePieces};
ghost use Rattle.job_run.specs.Pairs.{tapes_in};

use job_plan::Plan;
use std::alloc::{AllocError, Global};
use tape_words::Tape;

// The piece of party `p` in session `s`, of the tape that the party has for all sessions.
fn piece_of(alloc: Global, plan: &Plan, tape: &[u64], p: u32, s: u32) -> Result<Tape, AllocError>
    requires party { p < plan.now.parties }
    requires session { s < length plan.now.sessions }
    requires long { length tape.now ≡ tape_length plan.now p }
    requires words { All (λ word. word < 2 ^ plan.now.bits) tape.now }
    ensures { IfOk result (λ piece. piece
        ≡ take (words plan.now p s) (drop (place plan.now p s 0) tape.now)) }
{
    let at = plan.tape_start(p, s) as usize;
    let count = plan.words(p, s) as usize;
    let words = Vec::from_slice(alloc, &tape[at..at + count])?;
    match Tape::from_words(plan.ring(), words) {
        Ok(piece) => Ok(piece),
        Err(_) => unreachable!(),
    }
}

/// The pieces of these tapes, in the order of the desks: session by session and party by party.
pub(crate) fn cut_pieces(
    alloc: Global,
    plan: &Plan,
    tapes: &[Vec<u64>],
) -> Result<Vec<Tape>, AllocError>
    requires { AreTapes plan.now (session_words tapes.now) }
    ensures are { IfOk result (λ pieces. ArePieces plan.now pieces.items) }
    ensures same { IfOk result (λ pieces. tapes_in plan.now pieces.items ≡ session_words tapes.now) }
{
    let mut pieces = Vec::new(alloc);
    for s in 0..plan.sessions() {
        for p in 0..plan.parties() {
            pieces.push(piece_of(alloc, plan, tapes[p as usize].as_slice(), p, s)?)?;
        }
    }
    Ok(pieces)
}
