//! A slot of a session, and what its messages are made of.

use crate::summands::SummandTable;

/// A slot of a session, with the summands of the session's wires and where the parties' deals of the slot begin on
/// their tapes.
#[derive(Clone, Copy)]
pub struct SlotAt<'a> {
    /// The session's number.
    pub session: u32,
    /// The slot's number in its session.
    pub slot: u32,
    /// The summands of the session's wires.
    pub table: &'a SummandTable,
    /// For each party where its next words begin on its tape.
    pub places: &'a [u32],
}
