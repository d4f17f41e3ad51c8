//! Of which rows a slot's messages are made.

use crate::side::Side;
use circuit_model::Gate;

/// Of which rows the words of a slot's messages are made, by the rows' names.
#[derive(Clone, Copy)]
pub enum SlotContent {
    /// The summands of this row, as they are dealt, handed out, opened or kept.
    Row(u32),
    /// What the wire that a gate reads on this side has more than its mask.
    Excess { wire: u32, mask: u32, side: Side },
    /// The product of the wires that this gate reads, whose parts are dealt to the gate's output.
    Product(Gate),
}
