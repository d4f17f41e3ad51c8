//! Faults of plans and of sessions.
ghost use Rattle.std.specs.Prelude.{codes};
ghost use Rattle.plan_faults.specs.ToldFaults.{told_plan_fault, told_part_fault};

use crate::fault::Fault;
use fault_table::Entry;
use plan_faults::{PartFault, PlanFault};

impl Fault for PlanFault {
    ghost part = { λ _. codes "plan" };

    ghost entry = { told_plan_fault };

    fn part(&self) -> &'static str {
        "plan"
    }

    fn entry(&self) -> Entry<'_> {
        self.told()
    }
}

impl Fault for PartFault {
    ghost part = { λ _. codes "session" };

    ghost entry = { told_part_fault };

    fn part(&self) -> &'static str {
        "session"
    }

    fn entry(&self) -> Entry<'_> {
        self.told()
    }
}
