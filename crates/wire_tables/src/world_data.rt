//! What the tables of a run are made of.

use job_plan::{Inputs, Plan};

/// What a run goes by: a plan, the inputs of its sessions, and for each party the words that it draws, all sessions in
/// order.
#[derive(Clone, Copy)]
pub struct WorldData<'a> {
    /// The plan.
    pub plan: &'a Plan,
    /// The inputs of all parties.
    pub inputs: &'a Inputs,
    /// A tape for each party.
    pub tapes: &'a [Vec<u64>],
}
