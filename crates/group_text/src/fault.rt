//! Why a text names no group.

use fault_table::Entry;

/// The fault of a text that names no group.
#[derive(Clone, Copy, Debug, PartialEq, Eq)]
pub enum GroupFault {
    /// The part at this place, counted from 0, is no party's name, or stood before.
    BadGroup { at: u64 },
}

impl GroupFault {
    ghost use Rattle.std.specs.Prelude.{◌≡◌};
    ghost use Rattle.group_text.specs.ToldFaults.{told_group_fault};

    /// What the line of a refusal tells of the fault.
    pub fn told(self) -> Entry<'static>
        ensures { result ≡ told_group_fault self }
    {
        match self {
            GroupFault::BadGroup { at } => Entry::at_place(1, "BadGroup", at),
        }
    }
}
