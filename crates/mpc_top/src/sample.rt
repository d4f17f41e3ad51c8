//! A job made from a number.
ghost use Rattle.std.specs.Prelude.{◌≡◌, ◌<◌, ◌≤◌, Some, IfOk};
ghost use Rattle.outer_io.specs.Files.{FilesReading};
ghost use Rattle.command_words.specs.Commands.{sample};
ghost use Rattle.plan_model.specs.InputWords.{AreInputs};
ghost use Rattle.desk_laws.specs.Pieces.{ArePieces};
ghost use Rattle.sample_maker.specs.Samples.{sample_names, sample_plan, sample_inputs, sample_pieces};
ghost use Rattle.mpc_top.specs.Outcomes.{RunsAlone};

use crate::means::Means;
use desk_workers::prepare;
use job_limits::MOST_GATES;
use job_plan::{Inputs, Plan};
use job_walk::Stop;
use outer_io::{Files, Pace, Sink};
use output_text::write_sample;
use party_names::{Names, NamesFault, read_names};
use sample_maker::{Sample, make_sample};
use std::alloc::{AllocError, Global};
use std::thread::Threads;
use tape_words::Tape;

const WORKERS: u32 = 4;

/// Makes a job of `count` gates, 1 to 65,536, and runs it by four workers. It reads no file.
pub(crate) fn run_sample<F: Files, O: Sink, P: Pace, R: Threads + Sync>(
    means: &Means<'_, P, R>,
    files: &mut F,
    out: &mut O,
    count: u32,
) -> Result<(), Stop>
    requires { (0 < count) × (count ≤ MOST_GATES) }
    ensures { RunsAlone (Some (sample count)) (F.reading files.old) (F.reading files.new)
        (O.reading out.old) (O.reading out.new) result }
{
    let _ = files;
    let names = three_names(means.alloc)?;
    let made = make_sample(means.alloc, count)?;
    let result = run_made(means, out, count, &names, made);
    drop(names);
    result
}

// Runs the job that was made from a number.
fn run_made<O: Sink, P: Pace, R: Threads + Sync>(
    means: &Means<'_, P, R>,
    out: &mut O,
    count: u32,
    names: &Names,
    made: Sample,
) -> Result<(), Stop>
    requires names { names.now ≡ sample_names }
    requires plan { made.plan ≡ sample_plan count }
    requires inputs { made.inputs ≡ sample_inputs count }
    requires tapes { made.tapes.items ≡ sample_pieces count }
    requires inputs_fit { AreInputs made.plan made.inputs }
    requires pieces_fit { ArePieces made.plan made.tapes.items }
    ensures { (files : FilesReading) → RunsAlone (Some (sample count)) files files
        (O.reading out.old) (O.reading out.new) result }
{
    let Sample {
        plan,
        inputs,
        tapes,
    } = made;
    let ready = prepare(means.alloc, &plan, &inputs, tapes, WORKERS)?;
    let done = ready.run(means.threads, &plan, means.pace);
    let written = write_sample(out, names, &plan, &done, count);
    drop((inputs, plan));
    Ok(written?)
}

// The names of the parties, if there is memory.
fn three_names(alloc: Global) -> Result<Names, AllocError>
    ensures { IfOk result (λ names. names ≡ sample_names) }
{
    let first = String::from_str(alloc, "a")?;
    let second = String::from_str(alloc, "b")?;
    let third = String::from_str(alloc, "c")?;
    let texts = vec![in alloc; first, second, third]?;
    match read_names(alloc, &texts) {
        Ok(names) => Ok(names),
        Err(NamesFault::Memory) => Err(AllocError),
        Err(NamesFault::BadName { .. }) => unreachable!(),
        Err(NamesFault::TwiceNamed { .. }) => unreachable!(),
        Err(NamesFault::PartyCount { .. }) => unreachable!(),
    }
}
