//! Why other inputs can't be hidden.

use fault_table::Entry;
use std::alloc::AllocError;

/// Why other inputs can't be hidden from a group.
#[derive(Clone, Copy, Debug, PartialEq, Eq)]
pub enum MapFault {
    /// The group lies in no maximal tolerated group.
    NotTolerated,
    /// A member gives the first word on this input wire, and is to give the second.
    InputDiffers {
        session: u32,
        wire: u32,
        first: u64,
        second: u64,
    },
    /// The member `recipient` reads the first value on this output wire, and is to read the second.
    OutputDiffers {
        session: u32,
        wire: u32,
        recipient: u32,
        first: u64,
        second: u64,
    },
    /// Out of memory.
    Memory,
}

impl From<AllocError> for MapFault {
    ghost use Rattle.std.specs.Prelude.{◌≡◌};
    ghost use Rattle.tape_map.specs.declared.fault.MapFault.TheVariants.{Memory};

    ghost from_gives = { λ _ fault. fault ≡ Memory };

    fn from(_: AllocError) -> MapFault {
        MapFault::Memory
    }
}

impl MapFault {
    ghost use Rattle.std.specs.Prelude.{◌≡◌};
    ghost use Rattle.tape_map.specs.ToldFaults.{told_map_fault};

    /// What the line of a refusal tells of the fault.
    pub fn told(self) -> Entry<'static>
        ensures { result ≡ told_map_fault self }
    {
        match self {
            MapFault::NotTolerated => Entry::new(1, "NotTolerated"),
            MapFault::InputDiffers {
                session,
                wire,
                first,
                second,
            } => Entry::new(2, "InputDiffers")
                .with_number("session", session as u64)
                .with_number("wire", wire as u64)
                .with_number("first", first)
                .with_number("second", second),
            MapFault::OutputDiffers {
                session,
                wire,
                recipient,
                first,
                second,
            } => Entry::new(3, "OutputDiffers")
                .with_number("session", session as u64)
                .with_number("wire", wire as u64)
                .with_party("recipient", recipient)
                .with_number("first", first)
                .with_number("second", second),
            MapFault::Memory => Entry::new(0, "Memory"),
        }
    }
}
