//! The two layouts of circuit files.

/// The layout of a circuit's file: which operations its gate lines name.
#[derive(Clone, Copy, Debug, PartialEq, Eq)]
pub enum CircuitLayout {
    /// Bristol Fashion: Boolean gates over one bit.
    Bristol,
    /// The same lines with the operations of a ring.
    Ring,
}
