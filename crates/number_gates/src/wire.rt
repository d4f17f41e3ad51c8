//! Wires, bits and gates, while it isn't known how many inputs there are.

use circuit_model::Operation;

/// A wire: that of an input, or that which a gate sets, both numbered from 0.
#[derive(Clone, Copy)]
pub enum Wire {
    Input(u64),
    Gate(u64),
}

/// A gate. A field that the operation doesn't use is 0.
#[derive(Clone, Copy)]
pub struct DraftGate {
    pub operation: Operation,
    pub first: Wire,
    pub second: Wire,
    pub constant: u64,
}

/// A bit: a known one, or that on a wire.
#[derive(Clone, Copy)]
pub enum Bit {
    Zero,
    One,
    On(Wire),
}
