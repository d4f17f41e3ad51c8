//! Plans: who takes part in which sessions, and the numbering of messages and tape places that all parties share.
#![tactic(auto)]

mod counts;
mod inputs;
mod lists;
mod outline;
mod pattern_transfers;
mod patterns;
mod plan;
mod readers;

pub use inputs::Inputs;
pub use job_session::{
    InputValue, KeptWire, OutputValue, Owner, RowTable, SessionPart, Side, SlotKind, Source,
};
pub use plan::Plan;
pub use plan_faults::{PartFault, PlanFault};
pub use plan_model::{Key, Pattern, Transfer};
