//! Faults of what a group sees.
ghost use Rattle.std.specs.Prelude.{codes};
ghost use Rattle.tape_map.specs.ToldFaults.{told_map_fault};
ghost use Rattle.view_check.specs.ToldFaults.{told_check_fault};

use crate::fault::Fault;
use fault_table::Entry;
use tape_map::MapFault;
use view_check::CheckFault;

impl Fault for MapFault {
    ghost part = { λ _. codes "pair" };

    ghost entry = { told_map_fault };

    fn part(&self) -> &'static str {
        "pair"
    }

    fn entry(&self) -> Entry<'_> {
        self.told()
    }
}

impl Fault for CheckFault {
    ghost part = { λ _. codes "view" };

    ghost entry = { told_check_fault };

    fn part(&self) -> &'static str {
        "view"
    }

    fn entry(&self) -> Entry<'_> {
        self.told()
    }
}
