//! Why a text is no formula.
ghost use Rattle.std.specs.Prelude.{◌≡◌};
ghost use Rattle.group_formula.specs.Resolved.{fault_place};
ghost use Rattle.group_formula.specs.ToldFaults.{told_formula_fault};

use fault_table::Entry;
use std::alloc::AllocError;

/// The fault of a text, and the byte at which it stands. A first pass from left to right finds `Syntax`, `TooDeep`
/// and `TooManyNodes`, tried in this order at each token. Only a text without one of these has a second pass, which
/// finds the other two.
#[derive(Clone, Copy, Debug, PartialEq, Eq)]
pub enum FormulaFault {
    /// No formula goes on with the token here, or the text ends too early.
    Syntax { at: u64 },
    /// A name that is no party's.
    UnknownName { at: u64 },
    /// A number of parts that is 0, or more than there are.
    BadCount { at: u64 },
    /// The 33rd open parenthesis.
    TooDeep { at: u64 },
    /// The 257th element.
    TooManyNodes { at: u64 },
    /// There was too little memory.
    Memory,
}

impl FormulaFault {
    /// The byte at which the fault stands; 0 for want of memory.
    pub fn at(self) -> u64
        ensures { result ≡ fault_place self }
    {
        match self {
            FormulaFault::Syntax { at }
            | FormulaFault::UnknownName { at }
            | FormulaFault::BadCount { at }
            | FormulaFault::TooDeep { at }
            | FormulaFault::TooManyNodes { at } => at,
            FormulaFault::Memory => 0,
        }
    }

    /// What the line of a refusal tells of the fault.
    pub fn told(self) -> Entry<'static>
        ensures { result ≡ told_formula_fault self }
    {
        match self {
            FormulaFault::Syntax { at } => Entry::at_place(1, "Syntax", at),
            FormulaFault::UnknownName { at } => Entry::at_place(2, "UnknownName", at),
            FormulaFault::BadCount { at } => Entry::at_place(3, "BadCount", at),
            FormulaFault::TooDeep { at } => Entry::at_place(4, "TooDeep", at),
            FormulaFault::TooManyNodes { at } => Entry::at_place(5, "TooManyNodes", at),
            FormulaFault::Memory => Entry::new(0, "Memory"),
        }
    }
}

impl From<AllocError> for FormulaFault {
    ghost use Rattle.std.specs.Prelude.{◌≡◌};
    ghost use Rattle.group_formula.specs.declared.fault.FormulaFault.TheVariants.{Memory};

    ghost from_gives = { λ _ fault. fault ≡ Memory };

    fn from(_: AllocError) -> FormulaFault {
        FormulaFault::Memory
    }
}
