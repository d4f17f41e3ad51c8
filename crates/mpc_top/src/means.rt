//! What a command is run with.
use std::alloc::Global;

/// What a command is run with: the threads in which its workers run, the memory that it takes, and whom its workers
/// tell of their steps. No clause speaks of it: a command is due the same with any.
#[derive(Drop)]
pub(crate) struct Means<'a, P, R> {
    pub(crate) threads: &'a R,
    pub(crate) alloc: Global,
    pub(crate) pace: &'a P,
}
