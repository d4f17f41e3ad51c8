//! The top call, and the same for words that ask for no node.
ghost use Rattle.std.specs.Prelude.{◌≡◌, ℕ, List, MatchOption};
ghost use Rattle.outer_io.specs.Jobs.{SpawnerReading};
ghost use Rattle.outer_io.specs.Links.{NetReading};
ghost use Rattle.outer_io.specs.Sink.{SinkReading};
ghost use Rattle.command_words.specs.Commands.{command_of};
ghost use Rattle.mpc_top.specs.Due.{words_view, AsksForNode};
ghost use Rattle.mpc_top.specs.Outside.{Outside, outside_of};
ghost use Rattle.mpc_top.specs.Outcomes.{RunsWords};
ghost use Rattle.mpc_top.specs.Command.{Answers};

use crate::means::Means;
use crate::run::{run_alone, run_command};
use crate::stop_text::write_stop;
use command_words::{Command, read_command};
use job_walk::Stop;
use link_reader::LinkReader;
use outer_io::{Files, Net, Pace, Sink, Spawner};
use std::alloc::Global;
use std::sync::Wait;
use std::thread::Threads;

/// Reads what the command of the words is due, and writes it.
fn run<F: Files, O: Sink, N: Net, W: Spawner<LinkReader<N::In>>, P: Pace, R: Threads + Wait + Sync>(
    means: &Means<'_, P, R>,
    words: &[String],
    files: &mut F,
    out: &mut O,
    net: &mut N,
    spawner: &mut W,
) -> Result<(), Stop>
where
    N::In: Drop,
    ensures { (err err' : SinkReading) → RunsWords (command_of (words_view words.now))
        (outside_of (F.reading files.old) (O.reading out.old) err (N.reading net.old) (W.reading spawner.old))
        (outside_of (F.reading files.new) (O.reading out.new) err' (N.reading net.new) (W.reading spawner.new)) result }
{
    match read_command(words) {
        Ok(command) => run_command(means, files, out, net, spawner, command),
        Err(_) => Err(Stop::Words),
    }
}

// The exit status of a run, of which `err` is told where it stopped.
fn tell<E: Sink>(err: &mut E, ended: Result<(), Stop>) -> u8
    ensures { (words : List (List ℕ)) (before after : Outside)
        → ((e e' : SinkReading)
        → RunsWords (command_of words) (record before { err = e }) (record after { err = e' }) ended)
        → Answers words (record before { err = E.reading err.old }) (record after { err = E.reading err.new }) result }
{
    match ended {
        Ok(()) => 0,
        Err(stop) => match write_stop(err, &stop) {
            Ok(()) => stop.status(),
            Err(_) => 5,
        },
    }
}

/// Runs the command of the words over the files, and gives the exit status: 0 where it was done, 2 where the words are
/// refused, 3 where the files are, 4 where two tolerated groups together are all parties, 5 where the outside failed,
/// 6 where memory ran out. Workers run in threads of `rt`, and each tells `pace` of its steps. A node reads its peers
/// in jobs of `spawner`, over links that `net` gives and has back; it may wait for them without end.
pub fn command<
    F: Files,
    O: Sink,
    E: Sink,
    N: Net,
    W: Spawner<LinkReader<N::In>>,
    P: Pace,
    R: Threads + Wait + Sync,
>(
    rt: &R,
    alloc: Global,
    words: &[String],
    files: &mut F,
    out: &mut O,
    err: &mut E,
    net: &mut N,
    spawner: &mut W,
    pace: &P,
) -> u8
where
    N::In: Drop,
    ensures { Answers (words_view words.now)
        (outside_of (F.reading files.old) (O.reading out.old) (E.reading err.old)
        (N.reading net.old) (W.reading spawner.old))
        (outside_of (F.reading files.new) (O.reading out.new) (E.reading err.new)
        (N.reading net.new) (W.reading spawner.new))
        result }
{
    let means = Means {
        threads: rt,
        alloc,
        pace,
    };
    let result = run(&means, words, files, out, net, spawner);
    tell(err, result)
}

// Runs the command of the words, unless it is a node's.
fn run_words<F: Files, O: Sink, P: Pace, R: Threads + Sync>(
    means: &Means<'_, P, R>,
    words: &[String],
    files: &mut F,
    out: &mut O,
) -> Option<Result<(), Stop>>
    ensures { MatchOption result (AsksForNode (command_of (words_view words.now))
        × (F.reading files.new ≡ F.reading files.old) × (O.reading out.new ≡ O.reading out.old))
        (λ ended. (¬ AsksForNode (command_of (words_view words.now)))
        × ((err err' : SinkReading) (net : NetReading) (spawner : SpawnerReading)
        → RunsWords (command_of (words_view words.now))
        (outside_of (F.reading files.old) (O.reading out.old) err net spawner)
        (outside_of (F.reading files.new) (O.reading out.new) err' net spawner) ended)) }
{
    match read_command(words) {
        Ok(Command::Node { .. }) => None,
        Ok(command) => Some(run_alone(means, files, out, command)),
        Err(_) => Some(Err(Stop::Words)),
    }
}

/// Does what `command` does, unless the words ask for a node: then it does nothing and answers None. It has no net and
/// no spawner, waits for nobody, and returns.
pub fn command_alone<F: Files, O: Sink, E: Sink, P: Pace, R: Threads + Sync>(
    rt: &R,
    alloc: Global,
    words: &[String],
    files: &mut F,
    out: &mut O,
    err: &mut E,
    pace: &P,
) -> Option<u8>
    ensures { MatchOption result (AsksForNode (command_of (words_view words.now))
        × (F.reading files.new ≡ F.reading files.old) × (O.reading out.new ≡ O.reading out.old)
        × (E.reading err.new ≡ E.reading err.old))
        (λ status. (¬ AsksForNode (command_of (words_view words.now)))
        × ((net : NetReading) (spawner : SpawnerReading) → Answers (words_view words.now)
        (outside_of (F.reading files.old) (O.reading out.old) (E.reading err.old) net spawner)
        (outside_of (F.reading files.new) (O.reading out.new) (E.reading err.new) net spawner) status)) }
{
    let means = Means {
        threads: rt,
        alloc,
        pace,
    };
    match run_words(&means, words, files, out) {
        Some(ended) => Some(tell(err, ended)),
        None => None,
    }
}
