//! Two runs of a job, the second with other inputs.
ghost use Rattle.std.specs.Prelude.{◌≡◌, true, ℕ, List, Some, Ok, IfOk, IfSome, length, map};
ghost use Rattle.std.specs.Option.{is_some};
ghost use Rattle.party_file.specs.Forms.{form_of};
ghost use Rattle.plan_model.specs.InputWords.{AreInputs};
ghost use Rattle.plan_model.specs.Plans.{structure};
ghost use Rattle.job_run.specs.Parties.{AllFit, world_of};
ghost use Rattle.job_run.specs.Pairs.{IsPair};
ghost use Rattle.command_words.specs.Commands.{pair};
ghost use Rattle.job_walk.specs.Verdict.{Ends};
ghost use Rattle.mpc_top.specs.WholeJobs.{hidden_of, paired_job, whole_job};
ghost use Rattle.outer_io.specs.Files.{FilesReading};
ghost use Rattle.job_walk.specs.JobReads.{ReadsPlan};
ghost use Rattle.job_walk.specs.Reads.{WalksAs};
ghost use Rattle.job_walk.specs.Seen.{planned_view};
ghost use Rattle.mpc_top.specs.Seen.{parties_view};
ghost use Rattle.mpc_top.specs.Outcomes.{RunsAlone};

use crate::means::Means;
use crate::other::read_other_inputs;
use crate::parties::read_parties;
use job_plan::Inputs;
use job_run::{Pair, inputs_of, pair_of};
use job_walk::{Planned, Stop, read_planned, stop_of};
use outer_io::{Files, Pace, Sink};
use output_text::write_pair;
use party_file::PartyData;
use party_set::Group;
use std::alloc::Global;
use std::thread::Threads;

/// Runs the job of a folder, and again with the other inputs of the folder and the tapes that hide them from a group.
/// Both runs have all their memory before the first byte is written.
pub(crate) fn run_pair<F: Files, O: Sink, P: Pace, R: Threads + Sync>(
    means: &Means<'_, P, R>,
    files: &mut F,
    out: &mut O,
    dir: &str,
    group: &str,
) -> Result<(), Stop>
    ensures { RunsAlone (Some (pair dir.now group.now)) (F.reading files.old) (F.reading files.new)
        (O.reading out.old) (O.reading out.new) result }
{
    let planned = read_planned(means.alloc, files, dir, Some(group))?;
    let result = run_planned(means, files, out, dir, &planned);
    drop(planned);
    result
}

// Runs a job that was read, with a group that was asked for, and again with the other inputs.
fn run_planned<F: Files, O: Sink, P: Pace, R: Threads + Sync>(
    means: &Means<'_, P, R>,
    files: &mut F,
    out: &mut O,
    dir: &str,
    planned: &Planned,
) -> Result<(), Stop>
    requires names { length planned.now.names ≡ planned.now.plan.parties }
    requires groups { planned.now.groups ≡ structure planned.now.plan }
    requires asked { is_some planned.now.group ≡ true }
    requires group { IfSome planned.now.group (λ group. group.parties ≡ length planned.now.names) }
    ensures { (group : List ℕ) (before : FilesReading)
        → ReadsPlan dir.now (Some group) before (F.reading files.old) (Ok planned.now)
        → RunsAlone (Some (pair dir.now group)) before (F.reading files.new)
        (O.reading out.old) (O.reading out.new) result }
{
    let alloc = means.alloc;
    let group = group_of(planned);
    let parties = read_parties(alloc, files, dir, planned)?;
    let inputs = inputs_of(alloc, &planned.plan, &parties)?;
    let numeric: &[bool] = &planned.numeric;
    let other = read_other_inputs(
        alloc,
        files,
        dir,
        &planned.names,
        numeric,
        &planned.plan,
        &inputs,
    )?;
    let pair = hidden_pair(alloc, planned, group, parties, &other)?;
    let Pair {
        first,
        second,
        tapes,
    } = pair;
    let first = first.run(means.threads, &planned.plan, means.pace);
    let second = second.run(means.threads, &planned.plan, means.pace);
    Ok(write_pair(
        out,
        &planned.names,
        numeric,
        &planned.plan,
        &first,
        &second,
        group,
        &tapes,
    )?)
}

// The group that was asked for.
fn group_of(planned: &Planned) -> Group
    requires { is_some planned.now.group ≡ true }
    ensures { planned.now.group ≡ Some result }
{
    match planned.group {
        Some(group) => group,
        None => unreachable!(),
    }
}

// Makes both runs ready, where the other inputs can be hidden from the group.
fn hidden_pair(
    alloc: Global,
    planned: &Planned,
    group: Group,
    parties: Vec<PartyData>,
    other: &Inputs,
) -> Result<Pair, Stop>
    requires names { length planned.now.names ≡ planned.now.plan.parties }
    requires groups { planned.now.groups ≡ structure planned.now.plan }
    requires asked { planned.now.group ≡ Some group }
    requires group { group.parties ≡ planned.now.plan.parties }
    requires count { length parties.items ≡ planned.now.plan.parties }
    requires fit { AllFit planned.now.plan parties.items }
    requires other { AreInputs planned.now.plan other.now }
    ensures walks { let job = whole_job (planned_view planned.now) (parties_view parties) in
        WalksAs (λ _. paired_job job other.now) (Ends (hidden_of job other.now)) result }
    ensures pair { IfOk result
        (IsPair (world_of planned.now.plan (map form_of parties.items)) other.now group.mask) }
{
    match pair_of(alloc, &planned.plan, &planned.groups, group, parties, other) {
        Ok(pair) => Ok(pair),
        Err(fault) => Err(stop_of(alloc, Some(&planned.names), &[], &fault)),
    }
}
