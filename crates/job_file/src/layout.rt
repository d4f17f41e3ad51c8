//! How the file of a session tells its circuit.
use circuit_model::CircuitLayout;

/// What the file of a session has.
#[derive(Clone, Copy, Debug, PartialEq, Eq)]
pub enum SessionLayout {
    /// The gates of a circuit, a line each.
    Gates(CircuitLayout),
    /// Expressions, which are compiled to a circuit over words (version 2).
    Expressions,
    /// A program over whole numbers, which is compiled to a circuit of bits (version 2).
    Numbers,
}
