//! Why a call stops.
ghost use Rattle.std.specs.Prelude.{◌≡◌, [], MatchResult, map};
ghost use Rattle.std.specs.Option.{option_map_or};
ghost use Rattle.fault_table.specs.Tables.{told_key};
ghost use Rattle.refusal_text.specs.Lines.{refusal_line};
ghost use Rattle.job_walk.specs.Stops.{IsStopOf};

use fault_table::EntryKey;
use node_talk::NodeFault;
use outer_io::Failed;
use party_names::Names;
use refusal_text::{Fault, fault_line};
use std::alloc::{AllocError, AllocFailed, Global};

/// Why a call stops before its end.
#[derive(Drop)]
pub enum Stop {
    /// Memory ran out.
    Memory,
    /// The words are refused.
    Words,
    /// `out` failed.
    Out,
    /// The net failed, and gave no links.
    Net,
    /// A node's run ended with this fault. The names are those of the parties.
    Peer { names: Names, fault: NodeFault },
    /// The file of this name could not be read.
    Files(Vec<u8>),
    /// The job is refused, with this line.
    Refused(Vec<u8>),
    /// Two tolerated groups together are all parties, as this line tells.
    Covering(Vec<u8>),
}

impl Stop {
    ghost use Rattle.std.specs.Prelude.{◌≡◌};
    ghost use Rattle.job_walk.specs.Stops.{status_of};

    /// The exit status that it gives.
    pub fn status(&self) -> u8
        ensures { result ≡ status_of self.now }
    {
        match self {
            Stop::Memory => 6,
            Stop::Words => 2,
            Stop::Out | Stop::Net | Stop::Peer { .. } | Stop::Files(_) => 5,
            Stop::Refused(_) => 3,
            Stop::Covering(_) => 4,
        }
    }
}

/// A refusal with this line.
pub fn refusal(line: Result<Vec<u8>, AllocError>) -> Stop
    ensures { MatchResult line (λ text. result ≡ Stop.Refused text) (λ _. result ≡ Stop.Memory) }
{
    match line {
        Ok(line) => Stop::Refused(line),
        Err(_) => Stop::Memory,
    }
}

/// The stop of a fault: the refusal with its line, in which these keys stand in front of its own, unless the fault is
/// want of memory.
pub fn stop_of<F: Fault>(
    alloc: Global,
    names: Option<&Names>,
    front: &[EntryKey],
    fault: &F,
) -> Stop
    ensures { IsStopOf (F.entry fault.now).number (refusal_line (F.part fault.now)
        (option_map_or (λ n. n.now) names.entry []) (map told_key front.now) (F.entry fault.now)) result }
{
    refusal(fault_line(alloc, names, front, fault))
}

impl From<AllocError> for Stop {
    ghost use Rattle.std.specs.Prelude.{◌≡◌};
    ghost use Rattle.job_walk.specs.declared.stop.Stop.TheVariants.{Memory};

    ghost from_gives = { λ _ stop. stop ≡ Memory };

    fn from(_: AllocError) -> Self {
        Stop::Memory
    }
}

impl<T: Drop> From<AllocFailed<T>> for Stop {
    ghost use Rattle.std.specs.Prelude.{◌≡◌};
    ghost use Rattle.job_walk.specs.declared.stop.Stop.TheVariants.{Memory};

    ghost from_gives = { λ _ stop. stop ≡ Memory };

    fn from(_: AllocFailed<T>) -> Self {
        Stop::Memory
    }
}

impl From<Failed> for Stop {
    ghost use Rattle.std.specs.Prelude.{◌≡◌};
    ghost use Rattle.job_walk.specs.declared.stop.Stop.TheVariants.{Out};

    ghost from_gives = { λ _ stop. stop ≡ Out };

    fn from(_: Failed) -> Self {
        Stop::Out
    }
}
