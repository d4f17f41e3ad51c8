//! Refusals of plans.
ghost use Rattle.std.specs.Prelude.{◌≡◌};

use fault_table::Entry;
use std::alloc::AllocError;

/// Why there is no plan.
#[derive(Clone, Copy, Debug, PartialEq, Eq)]
pub enum PlanFault {
    /// All sessions together have this many messages, which is more than 1,048,576.
    TooManyMessages { count: u64 },
    /// In all sessions together the party, which is the first such, draws this many tape words: more than 1,048,576.
    TooManyWords { party: u32, count: u64 },
    /// Memory ran out.
    Memory,
}

impl PlanFault {
    ghost use Rattle.plan_faults.specs.ToldFaults.{told_plan_fault};

    /// What the line of a refusal tells of the fault.
    pub fn told(self) -> Entry<'static>
        ensures { result ≡ told_plan_fault self }
    {
        match self {
            PlanFault::TooManyMessages { count } => {
                Entry::new(1, "TooManyMessages").with_number("count", count)
            }
            PlanFault::TooManyWords { party, count } => Entry::new(2, "TooManyWords")
                .with_party("party", party)
                .with_number("count", count),
            PlanFault::Memory => Entry::new(0, "Memory"),
        }
    }
}

impl From<AllocError> for PlanFault {
    ghost use Rattle.std.specs.Prelude.{◌≡◌};
    ghost use Rattle.plan_faults.specs.declared.plan_fault.PlanFault.TheVariants.{Memory};

    ghost from_gives = { λ _ fault. fault ≡ Memory };

    fn from(_: AllocError) -> PlanFault {
        PlanFault::Memory
    }
}
