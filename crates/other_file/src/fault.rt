//! Why a file gives no other inputs.
ghost use Rattle.std.specs.Prelude.{◌≡◌};
ghost use Rattle.other_file.specs.ToldFaults.{told_other_fault};
ghost use Rattle.other_file.specs.Faults.{of_file, of_party};

use fault_table::Entry;
use party_file::PartyFault;
use std::alloc::{AllocError, AllocFailed};

/// The fault of a file of other inputs.
#[derive(Drop)]
pub enum OtherFault {
    /// The bytes are no document, or its version, its fields or the names under `inputs` have this fault.
    File(PartyFault),
    /// What stands under the name of this party is no list of texts.
    WrongKind { party: u32 },
    /// The texts of this party have this fault.
    Inputs { party: u32, fault: PartyFault },
    /// There was too little memory.
    Memory,
}

impl OtherFault {
    /// What the line of a refusal tells of the fault.
    pub fn told(&self) -> Entry<'_>
        ensures { result ≡ told_other_fault self.now }
    {
        match self {
            OtherFault::File(fault) => return fault.told(),
            OtherFault::WrongKind { party } => Entry::new(5, "WrongKind").of_party(*party),
            OtherFault::Inputs { party, fault } => return fault.told().of_party(*party),
            OtherFault::Memory => Entry::new(0, "Memory"),
        }
    }
}

/// The fault of the file as such.
pub(crate) fn of_file(fault: PartyFault) -> OtherFault
    ensures { result ≡ of_file fault }
{
    match fault {
        PartyFault::Memory => OtherFault::Memory,
        fault => OtherFault::File(fault),
    }
}

/// The fault of a party's inputs.
pub(crate) fn of_party(party: u32, fault: PartyFault) -> OtherFault
    ensures { result ≡ of_party party fault }
{
    match fault {
        PartyFault::Memory => OtherFault::Memory,
        fault => OtherFault::Inputs { party, fault },
    }
}

impl From<AllocError> for OtherFault {
    ghost use Rattle.std.specs.Prelude.{◌≡◌};
    ghost use Rattle.other_file.specs.declared.fault.OtherFault.TheVariants.{Memory};

    ghost from_gives = { λ _ fault. fault ≡ Memory };

    fn from(_: AllocError) -> OtherFault {
        OtherFault::Memory
    }
}

impl<T: Drop> From<AllocFailed<T>> for OtherFault {
    ghost use Rattle.std.specs.Prelude.{◌≡◌};
    ghost use Rattle.other_file.specs.declared.fault.OtherFault.TheVariants.{Memory};

    ghost from_gives = { λ _ fault. fault ≡ Memory };

    fn from(_: AllocFailed<T>) -> OtherFault {
        OtherFault::Memory
    }
}
