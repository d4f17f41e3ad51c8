//! What is wrong with a circuit.
ghost use Rattle.std.specs.Prelude.{◌≡◌};

use fault_table::Entry;
use std::alloc::AllocError;

/// What is wrong with the text of a circuit (Bristol Fashion). A line is told by its number, counted from 1.
#[derive(Clone, Copy, Debug, PartialEq, Eq)]
pub enum CircuitFault {
    /// The bytes from here on are no text.
    NotUtf8 { at: u64 },
    /// Something other than a number stands where one is wanted.
    BadNumber { line: u64 },
    /// The line has too few tokens.
    ShortLine { line: u64 },
    /// The line has too many tokens.
    LongLine { line: u64 },
    /// The text ends before the last gate, after `found` lines with tokens.
    FewLines { found: u64 },
    /// A line with tokens follows the last gate.
    ExtraLine { line: u64 },
    /// There are more gates, wires or values than circuits may have.
    TooLarge { line: u64 },
    /// The values are wider than there are wires.
    HeaderWidths { line: u64 },
    /// The layout has no such operation.
    UnknownOperation { line: u64 },
    /// The operation takes another number of wires.
    WrongArity { line: u64 },
    /// The constant is no word of the ring.
    BadConstant { line: u64 },
    /// There is no such wire.
    WireOutOfRange { line: u64 },
    /// The gate reads a wire that isn't set yet.
    ReadBeforeSet { line: u64 },
    /// The gate sets a wire that is set already.
    SetTwice { line: u64 },
    /// Nothing sets this output wire.
    OutputNotSet { wire: u32 },
    /// The layout is of bits, and the words of the ring have more.
    WrongRing { bits: i64 },
    /// There is not enough memory.
    Memory,
}

impl CircuitFault {
    ghost use Rattle.circuit_model.specs.ToldFaults.{told_circuit_fault};

    /// What the line of a refusal tells of the fault.
    pub fn told(self) -> Entry<'static>
        ensures { result ≡ told_circuit_fault self }
    {
        match self {
            CircuitFault::NotUtf8 { at } => Entry::at_place(1, "NotUtf8", at),
            CircuitFault::BadNumber { line } => Entry::on_line(2, "BadNumber", line),
            CircuitFault::ShortLine { line } => Entry::on_line(3, "ShortLine", line),
            CircuitFault::LongLine { line } => Entry::on_line(4, "LongLine", line),
            CircuitFault::FewLines { found } => {
                Entry::new(5, "FewLines").with_number("found", found)
            }
            CircuitFault::ExtraLine { line } => Entry::on_line(6, "ExtraLine", line),
            CircuitFault::TooLarge { line } => Entry::on_line(7, "TooLarge", line),
            CircuitFault::HeaderWidths { line } => Entry::on_line(8, "HeaderWidths", line),
            CircuitFault::UnknownOperation { line } => Entry::on_line(9, "UnknownOperation", line),
            CircuitFault::WrongArity { line } => Entry::on_line(10, "WrongArity", line),
            CircuitFault::BadConstant { line } => Entry::on_line(11, "BadConstant", line),
            CircuitFault::WireOutOfRange { line } => Entry::on_line(12, "WireOutOfRange", line),
            CircuitFault::ReadBeforeSet { line } => Entry::on_line(13, "ReadBeforeSet", line),
            CircuitFault::SetTwice { line } => Entry::on_line(14, "SetTwice", line),
            CircuitFault::OutputNotSet { wire } => {
                Entry::new(15, "OutputNotSet").with_number("wire", wire as u64)
            }
            CircuitFault::WrongRing { bits } => {
                Entry::new(16, "WrongRing").with_signed("bits", bits)
            }
            CircuitFault::Memory => Entry::new(0, "Memory"),
        }
    }
}

impl From<AllocError> for CircuitFault {
    ghost use Rattle.std.specs.Prelude.{◌≡◌};
    ghost use Rattle.circuit_model.specs.declared.fault.CircuitFault.TheVariants.{Memory};

    ghost from_gives = { λ _ fault. fault ≡ Memory };

    fn from(_: AllocError) -> CircuitFault {
        CircuitFault::Memory
    }
}
