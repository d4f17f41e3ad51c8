//! The written view of a job's folder, checked against the job.
ghost use Rattle.std.specs.Prelude.{◌≡◌, Some, None, Ok, length};
ghost use Rattle.outer_io.specs.Files.{FilesReading};
ghost use Rattle.command_words.specs.Commands.{audit};
ghost use Rattle.share_world.specs.Laws.{IsWhole};
ghost use Rattle.share_world.specs.Worlds.{view};
ghost use Rattle.wire_tables.specs.WireTables.{world_given};
ghost use Rattle.job_walk.specs.JobReads.{ReadsPlan};
ghost use Rattle.job_walk.specs.Reads.{WalksAs};
ghost use Rattle.mpc_top.specs.Audits.{Judged};
ghost use Rattle.mpc_top.specs.Outcomes.{RunsAlone};

use crate::parties::read_parties;
use job_plan::Inputs;
use job_run::{inputs_of, tapes_of};
use job_walk::{Planned, Stop, read_file, read_planned, stop_of};
use outer_io::{Files, Sink};
use output_text::write_yes;
use std::alloc::Global;
use view_check::check;

/// Checks the written view of a folder against its job: how many messages the view has, where each word is the
/// protocol's.
pub(crate) fn audit_job<F: Files, O: Sink>(
    alloc: Global,
    files: &mut F,
    out: &mut O,
    dir: &str,
) -> Result<(), Stop>
    ensures { RunsAlone (Some (audit dir.now)) (F.reading files.old) (F.reading files.new)
        (O.reading out.old) (O.reading out.new) result }
{
    let planned = read_planned(alloc, files, dir, None)?;
    let result = audit_planned(alloc, files, out, dir, &planned);
    drop(planned);
    result
}

// Checks the view of a job that was read.
fn audit_planned<F: Files, O: Sink>(
    alloc: Global,
    files: &mut F,
    out: &mut O,
    dir: &str,
    planned: &Planned,
) -> Result<(), Stop>
    requires names { length planned.now.names ≡ planned.now.plan.parties }
    ensures { (before : FilesReading)
        → ReadsPlan dir.now None before (F.reading files.old) (Ok planned.now)
        → RunsAlone (Some (audit dir.now)) before (F.reading files.new) (O.reading out.old) (O.reading out.new) result }
{
    planned.plan.recall();
    let parties = read_parties(alloc, files, dir, planned)?;
    let inputs = inputs_of(alloc, &planned.plan, &parties)?;
    let tapes = tapes_of(alloc, &parties)?;
    let text = read_file(alloc, files, dir, "view.txt")?;
    let count = judged(alloc, planned, &inputs, &tapes, &text)?;
    Ok(write_yes(out, count)?)
}

// How many messages a view has, where its text is accepted.
fn judged(
    alloc: Global,
    planned: &Planned,
    inputs: &Inputs,
    tapes: &[Vec<u64>],
    text: &[u8],
) -> Result<u32, Stop>
    requires names { length planned.now.names ≡ planned.now.plan.parties }
    requires whole { IsWhole (world_given planned.now.plan inputs.now tapes.now) }
    ensures { WalksAs (λ count. count)
        (Judged planned.now.names (view (world_given planned.now.plan inputs.now tapes.now)) text.now) result }
{
    match check(alloc, &planned.plan, inputs, tapes, &planned.names, text) {
        Ok(count) => Ok(count),
        Err(fault) => Err(stop_of(alloc, None, &[], &fault)),
    }
}
