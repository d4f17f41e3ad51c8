//! What is told of each turn of a worker, before it.

/// Is called before each turn that a worker gives a desk: one instruction, or those of gates that come one after
/// another. It has no meaning, and returns.
pub trait Pace: Sync {
    /// Worker `worker` is about to step desk `desk`.
    fn before(&self, worker: u32, desk: u32);
}

/// Does nothing.
pub struct NoPace;

impl Pace for NoPace {
    fn before(&self, _worker: u32, _desk: u32) {}
}
