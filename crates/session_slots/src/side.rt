//! The sides of a gate.
ghost use Rattle.std.specs.Prelude.{◌≡◌};
ghost use Rattle.session_slots.specs.Sessions.{operand};

use circuit_model::Gate;

/// The wire that a gate reads first, or the one that it reads second.
#[derive(Clone, Copy, Debug, PartialEq, Eq)]
pub enum Side {
    First,
    Second,
}

/// The wire that a gate reads on this side.
#[inline(always)]
pub fn operand(gate: Gate, side: Side) -> u32
    ensures { result ≡ operand gate side }
{
    match side {
        Side::First => gate.first,
        Side::Second => gate.second,
    }
}
