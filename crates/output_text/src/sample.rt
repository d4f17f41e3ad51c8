//! The text of a sample.
ghost use Rattle.std.specs.Prelude.{◌≡◌, ◌<◌, [], length};
ghost use Rattle.outer_io.specs.Sink.{Writes};
ghost use Rattle.outer_io.specs.Blocks.{Adds};
ghost use Rattle.desk_workers.specs.Runs.{IsRunOver, OfItsWorld};
ghost use Rattle.output_text.specs.Finished.{IsFinished, OfRunsWorld};
ghost use Rattle.output_text.specs.SampleText.{sample_text};

use crate::check::{gather_count, gather_tapes};
use crate::finished_run::FinishedRun;
use crate::run::gather_out;
use desk_workers::Done;
use job_plan::Plan;
use outer_io::{Blocks, Failed, Gather, Sink};
use party_names::Names;

/// Writes the number of a sample whose run is over, how many products, messages and tape words of each party its plan
/// has, and then its outputs as after a run. It takes no memory.
pub fn write_sample<S: Sink>(
    sink: &mut S,
    names: &Names,
    plan: &Plan,
    done: &Done,
    count: u32,
) -> Result<(), Failed>
    requires names { length names.now ≡ plan.now.parties }
    requires session { 0 < length plan.now.sessions }
    requires over { IsRunOver plan.now done.now }
    ensures { OfItsWorld plan.now done.now
        (λ w. Writes (sample_text names.now w count) (S.reading sink.old) (S.reading sink.new) result) }
{
    let mut blocks = Blocks::new(sink);
    let run = FinishedRun {
        names,
        plan,
        done,
        numeric: &[],
    };
    gather_sample(&mut blocks, &run, count);
    blocks.finish()
}

fn gather_sample<G: Gather>(out: &mut G, run: &FinishedRun<'_>, count: u32)
    requires session { 0 < length run.now.plan.now.sessions }
    requires run { IsFinished run.now }
    requires wires { run.now.numeric.now ≡ [] }
    ensures { OfRunsWorld run.now
        (λ w. Adds (sample_text run.now.names.now w count) (G.gathered out.old) (G.gathered out.new)) }
{
    gather_count(out, "sample", count as u64);
    gather_count(out, "products", run.plan.part(0).products() as u64);
    gather_count(out, "messages", run.plan.messages() as u64);
    gather_tapes(out, run.names, run.plan);
    gather_out(out, run);
}
