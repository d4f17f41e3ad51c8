//! Faults of what parties give.
ghost use Rattle.std.specs.Prelude.{codes};
ghost use Rattle.other_file.specs.ToldFaults.{told_other_fault};
ghost use Rattle.party_file.specs.ToldFaults.{told_party_fault};

use crate::fault::Fault;
use fault_table::Entry;
use other_file::OtherFault;
use party_file::PartyFault;

impl Fault for PartyFault {
    ghost part = { λ _. codes "party" };

    ghost entry = { told_party_fault };

    fn part(&self) -> &'static str {
        "party"
    }

    fn entry(&self) -> Entry<'_> {
        self.told()
    }
}

impl Fault for OtherFault {
    ghost part = { λ _. codes "other" };

    ghost entry = { told_other_fault };

    fn part(&self) -> &'static str {
        "other"
    }

    fn entry(&self) -> Entry<'_> {
        self.told()
    }
}
