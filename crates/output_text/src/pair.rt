//! The text of a pair of runs.
ghost use Rattle.std.specs.Prelude.{◌≡◌, ◌<◌, length};
ghost use Rattle.outer_io.specs.Sink.{Writes};
ghost use Rattle.outer_io.specs.Blocks.{Adds};
ghost use Rattle.plan_model.specs.InputWords.{session_words};
ghost use Rattle.desk_workers.specs.Runs.{IsRunOver, OfItsWorld};
ghost use Rattle.text_parts.specs.Parts.{words_text};
ghost use Rattle.output_text.specs.Finished.{IsFinished, OfRunsWorld};
ghost use Rattle.output_text.specs.PairText.{pair_text, tapes_text, tape_line};

use crate::finished_run::FinishedRun;
use crate::run::gather_out;
use crate::view::gather_view;
use desk_workers::Done;
use job_plan::Plan;
use outer_io::{Blocks, Failed, Gather, Sink};
use party_names::Names;
use party_set::Group;
use text_parts::gather_word;

/// Writes two runs of a plan that are over: `first`, the outputs of the first and what a group sees of it, `second`,
/// the same of the second, and then for each party `tape NAME` and the words of its tape in the second.
/// It takes no memory.
pub fn write_pair<S: Sink>(
    sink: &mut S,
    names: &Names,
    numeric: &[bool],
    plan: &Plan,
    first: &Done,
    second: &Done,
    group: Group,
    tapes: &[Vec<u64>],
) -> Result<(), Failed>
    requires names { length names.now ≡ plan.now.parties }
    requires group { group.parties ≡ length names.now }
    requires first { IsRunOver plan.now first.now }
    requires second { IsRunOver plan.now second.now }
    requires tapes { length tapes.now ≡ length names.now }
    ensures { OfItsWorld plan.now first.now (λ w. OfItsWorld plan.now second.now
        (λ v. session_words tapes.now ≡ v.tapes
        → Writes (pair_text names.now numeric.now w v group.mask) (S.reading sink.old) (S.reading sink.new) result)) }
{
    let mut blocks = Blocks::new(sink);
    let first = FinishedRun {
        names,
        plan,
        done: first,
        numeric,
    };
    gather_pair(&mut blocks, &first, second, group, tapes);
    blocks.finish()
}

// The second run has the names and the plan of the first.
fn gather_pair<G: Gather>(
    out: &mut G,
    first: &FinishedRun<'_>,
    second: &Done,
    group: Group,
    tapes: &[Vec<u64>],
)
    requires group { group.parties ≡ length first.now.names.now }
    requires first { IsFinished first.now }
    requires second { IsRunOver first.now.plan.now second.now }
    requires tapes { length tapes.now ≡ length first.now.names.now }
    ensures { OfRunsWorld first.now (λ w. OfItsWorld first.now.plan.now second.now
        (λ v. session_words tapes.now ≡ v.tapes
        → Adds (pair_text first.now.names.now first.now.numeric.now w v group.mask)
        (G.gathered out.old) (G.gathered out.new))) }
{
    out.push(b"first\n");
    gather_out(out, first);
    gather_view(out, first, group);
    let second = FinishedRun {
        names: first.names,
        plan: first.plan,
        done: second,
        numeric: first.numeric,
    };
    out.push(b"second\n");
    gather_out(out, &second);
    gather_view(out, &second, group);
    gather_tapes(out, first.names, tapes);
}

fn gather_tapes<G: Gather>(out: &mut G, names: &Names, tapes: &[Vec<u64>])
    requires { length tapes.now ≡ length names.now }
    ensures { Adds (tapes_text names.now (session_words tapes.now)) (G.gathered out.old) (G.gathered out.new) }
{
    for p in 0..names.len() {
        gather_tape(out, names, tapes, p);
    }
}

// The line of the tape of party p.
fn gather_tape<G: Gather>(out: &mut G, names: &Names, tapes: &[Vec<u64>], p: u32)
    requires tapes { length tapes.now ≡ length names.now }
    requires party { p < length names.now }
    ensures { Adds (tape_line names.now (session_words tapes.now) p) (G.gathered out.old) (G.gathered out.new) }
{
    out.push(b"tape ");
    out.push(names.name(p).as_bytes());
    gather_words(out, &tapes[p as usize]);
    out.push(b"\n");
}

// Words, each after a space.
fn gather_words<G: Gather>(out: &mut G, words: &[u64])
    ensures { Adds (words_text words.now) (G.gathered out.old) (G.gathered out.new) }
{
    for i in 0..words.len() {
        gather_word(out, words[i]);
    }
}
