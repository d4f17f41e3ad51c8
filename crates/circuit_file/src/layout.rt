//! The operations that the gate lines of a layout name.
ghost use Rattle.std.specs.Prelude.{◌≡◌};
ghost use Rattle.circuit_file.specs.CircuitFiles.{is_bristol};
ghost use Rattle.circuit_file.specs.GateLines.{bristol_operation, ring_operation, operation_of};

use circuit_model::{CircuitLayout, Operation};

/// Whether the gates are Boolean.
pub(crate) fn is_bristol(layout: CircuitLayout) -> bool
    ensures { result ≡ is_bristol layout }
{
    match layout {
        CircuitLayout::Bristol => true,
        CircuitLayout::Ring => false,
    }
}

#[inline(always)]
fn bristol_operation(name: &[u8]) -> Option<Operation>
    ensures { result ≡ bristol_operation name.now }
{
    if name == b"XOR".as_slice() {
        Some(Operation::Xor)
    } else if name == b"AND".as_slice() {
        Some(Operation::And)
    } else if name == b"INV".as_slice() {
        Some(Operation::Inv)
    } else if name == b"EQ".as_slice() {
        Some(Operation::Eq)
    } else if name == b"EQW".as_slice() {
        Some(Operation::Eqw)
    } else {
        None
    }
}

#[inline(always)]
fn ring_operation(name: &[u8]) -> Option<Operation>
    ensures { result ≡ ring_operation name.now }
{
    if name == b"ADD".as_slice() {
        Some(Operation::Add)
    } else if name == b"SUB".as_slice() {
        Some(Operation::Sub)
    } else if name == b"MUL".as_slice() {
        Some(Operation::Mul)
    } else if name == b"NEG".as_slice() {
        Some(Operation::Neg)
    } else if name == b"EQ".as_slice() {
        Some(Operation::Eq)
    } else if name == b"EQW".as_slice() {
        Some(Operation::Eqw)
    } else {
        None
    }
}

/// The operation of this name.
pub(crate) fn operation_of(layout: CircuitLayout, name: &str) -> Option<Operation>
    ensures { result ≡ operation_of layout name.now }
{
    operation_named(layout, name.as_bytes())
}

/// The operation whose name has these bytes.
#[inline(always)]
#[tactic(auto, unfolding(crate::specs::GateLines::operation_of))]
pub(crate) fn operation_named(layout: CircuitLayout, name: &[u8]) -> Option<Operation>
    ensures { result ≡ operation_of layout name.now }
{
    match layout {
        CircuitLayout::Bristol => bristol_operation(name),
        CircuitLayout::Ring => ring_operation(name),
    }
}
