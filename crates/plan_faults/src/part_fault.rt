//! Refusals of sessions.
ghost use Rattle.std.specs.Prelude.{◌≡◌, Some, None, MatchResult};
ghost use Rattle.plan_faults.specs.Counts.{counts_fault};

use fault_table::Entry;
use std::alloc::AllocError;

/// Why a circuit with owners and readers is no session.
#[derive(Clone, Copy, Debug, PartialEq, Eq)]
pub enum PartFault {
    /// There are other than as many owners as input values.
    OwnersDiffer { wanted: u64, found: u64 },
    /// There are other than as many groups of readers as output values.
    ReadersDiffer { wanted: u64, found: u64 },
    /// An input value carries output value `wanted` of an earlier session, which has this many.
    CarryMissing { wanted: u64, found: u64 },
    /// An input value has this width, and the output value that it carries has another.
    CarryWidth { wanted: u64, found: u64 },
    /// Memory ran out.
    Memory,
}

/// Compares the counts of owners and of groups of readers with those of a circuit's input and output values.
pub fn check_counts(inputs: u64, owners: u64, outputs: u64, readers: u64) -> Result<(), PartFault>
    ensures { MatchResult result (λ _. counts_fault inputs owners outputs readers ≡ None)
        (λ fault. counts_fault inputs owners outputs readers ≡ Some fault) }
{
    if owners != inputs {
        return Err(PartFault::OwnersDiffer {
            wanted: inputs,
            found: owners,
        });
    }
    if readers != outputs {
        return Err(PartFault::ReadersDiffer {
            wanted: outputs,
            found: readers,
        });
    }
    Ok(())
}

impl PartFault {
    ghost use Rattle.plan_faults.specs.ToldFaults.{told_part_fault};

    /// What the line of a refusal tells of the fault.
    pub fn told(self) -> Entry<'static>
        ensures { result ≡ told_part_fault self }
    {
        match self {
            PartFault::OwnersDiffer { wanted, found } => {
                Entry::new(1, "OwnersDiffer").with_found(wanted, found)
            }
            PartFault::ReadersDiffer { wanted, found } => {
                Entry::new(2, "ReadersDiffer").with_found(wanted, found)
            }
            PartFault::CarryMissing { wanted, found } => {
                Entry::new(3, "CarryMissing").with_found(wanted, found)
            }
            PartFault::CarryWidth { wanted, found } => {
                Entry::new(4, "CarryWidth").with_found(wanted, found)
            }
            PartFault::Memory => Entry::new(0, "Memory"),
        }
    }
}

impl From<AllocError> for PartFault {
    ghost use Rattle.std.specs.Prelude.{◌≡◌};
    ghost use Rattle.plan_faults.specs.declared.part_fault.PartFault.TheVariants.{Memory};

    ghost from_gives = { λ _ fault. fault ≡ Memory };

    fn from(_: AllocError) -> PartFault {
        PartFault::Memory
    }
}
