//! The commands.
ghost use Rattle.std.specs.Prelude.{◌≡◌, ℕ, List, length, Option, Some, Ok, IfSome, ◌<◌, ◌≤◌};
ghost use Rattle.outer_io.specs.Files.{FilesReading};
ghost use Rattle.outer_io.specs.Sink.{SinkReading};
ghost use Rattle.command_words.specs.Commands.{form_of, run, check, IsInRange};
ghost use Rattle.job_walk.specs.JobReads.{ReadsPlan};
ghost use Rattle.job_walk.specs.Seen.{text_view};
ghost use Rattle.mpc_top.specs.Due.{IsAlone};
ghost use Rattle.mpc_top.specs.Outside.{outside_of};
ghost use Rattle.mpc_top.specs.Outcomes.{RunsWords, RunsAlone};

use crate::audit::audit_job;
use crate::means::Means;
use crate::node::{NodeCall, run_node};
use crate::pair::run_pair;
use crate::parties::read_parties;
use crate::sample::run_sample;
use command_words::Command;
use job_limits::MOST_WORKERS;
use job_run::prepared;
use job_walk::{Planned, Stop, read_planned};
use link_reader::LinkReader;
use outer_io::{Files, Net, Pace, Sink, Spawner};
use output_text::{write_check, write_run};
use std::alloc::Global;
use std::sync::Wait;
use std::thread::Threads;

/// Reads what a command is due, all of it, and then writes it.
pub(crate) fn run_command<
    F: Files,
    O: Sink,
    N: Net,
    W: Spawner<LinkReader<N::In>>,
    P: Pace,
    R: Threads + Wait + Sync,
>(
    means: &Means<'_, P, R>,
    files: &mut F,
    out: &mut O,
    net: &mut N,
    spawner: &mut W,
    command: Command<'_>,
) -> Result<(), Stop>
where
    N::In: Drop,
    requires { IsInRange command }
    ensures { (err err' : SinkReading) → RunsWords (Some (form_of command.entry))
        (outside_of (F.reading files.old) (O.reading out.old) err (N.reading net.old) (W.reading spawner.old))
        (outside_of (F.reading files.new) (O.reading out.new) err' (N.reading net.new) (W.reading spawner.new)) result }
{
    match command {
        Command::Node { dir, name } => {
            let asked = NodeCall { dir, name };
            run_node(means, files, out, net, spawner, &asked)
        }
        alone => run_alone(means, files, out, alone),
    }
}

/// Does the same for a command that is no node's: nothing in it waits for others.
pub(crate) fn run_alone<F: Files, O: Sink, P: Pace, R: Threads + Sync>(
    means: &Means<'_, P, R>,
    files: &mut F,
    out: &mut O,
    command: Command<'_>,
) -> Result<(), Stop>
    requires range { IsInRange command }
    requires alone { IsAlone (form_of command) }
    ensures alone { IsAlone (form_of command.entry) }
    ensures runs { RunsAlone (Some (form_of command.entry)) (F.reading files.old) (F.reading files.new)
        (O.reading out.old) (O.reading out.new) result }
{
    match command {
        Command::Run { dir, workers, view } => run_job(means, files, out, dir, workers, view),
        Command::Check { dir } => check_job(means.alloc, files, out, dir),
        Command::Pair { dir, group } => run_pair(means, files, out, dir, group),
        Command::Sample { count } => run_sample(means, files, out, count),
        Command::Audit { dir } => audit_job(means.alloc, files, out, dir),
        Command::Node { .. } => unreachable!(),
    }
}

/// Runs the job of a folder by `workers`: the outputs that its desks delivered, and what a group saw, where one
/// is asked for.
fn run_job<F: Files, O: Sink, P: Pace, R: Threads + Sync>(
    means: &Means<'_, P, R>,
    files: &mut F,
    out: &mut O,
    dir: &str,
    workers: u32,
    view: Option<&str>,
) -> Result<(), Stop>
    requires { (0 < workers) × (workers ≤ MOST_WORKERS) }
    ensures { RunsAlone (Some (run dir.now workers (text_view view.entry))) (F.reading files.old) (F.reading files.new)
        (O.reading out.old) (O.reading out.new) result }
{
    let planned = read_planned(means.alloc, files, dir, view)?;
    let result = run_planned(means, files, out, dir, workers, &planned);
    drop(planned);
    result
}

// Runs a job that was read, by `workers`.
fn run_planned<F: Files, O: Sink, P: Pace, R: Threads + Sync>(
    means: &Means<'_, P, R>,
    files: &mut F,
    out: &mut O,
    dir: &str,
    workers: u32,
    planned: &Planned,
) -> Result<(), Stop>
    requires workers { (0 < workers) × (workers ≤ MOST_WORKERS) }
    requires names { length planned.now.names ≡ planned.now.plan.parties }
    requires group { IfSome planned.now.group (λ group. group.parties ≡ length planned.now.names) }
    ensures { (view : Option (List ℕ)) (before : FilesReading)
        → ReadsPlan dir.now view before (F.reading files.old) (Ok planned.now)
        → RunsAlone (Some (run dir.now workers view)) before (F.reading files.new)
        (O.reading out.old) (O.reading out.new) result }
{
    let parties = read_parties(means.alloc, files, dir, planned)?;
    let ready = prepared(means.alloc, &planned.plan, parties, workers)?;
    let done = ready.run(means.threads, &planned.plan, means.pace);
    Ok(write_run(
        out,
        &planned.names,
        &planned.numeric,
        &planned.plan,
        &done,
        planned.group,
    )?)
}

/// Checks the job of a folder: its structure and its counts.
fn check_job<F: Files, O: Sink>(
    alloc: Global,
    files: &mut F,
    out: &mut O,
    dir: &str,
) -> Result<(), Stop>
    ensures { RunsAlone (Some (check dir.now)) (F.reading files.old) (F.reading files.new)
        (O.reading out.old) (O.reading out.new) result }
{
    let planned = read_planned(alloc, files, dir, None)?;
    let written = write_check(out, &planned.names, &planned.groups, &planned.plan);
    drop(planned);
    Ok(written?)
}
