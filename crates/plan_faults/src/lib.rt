//! Why there is no plan, and no part of one.
#![tactic(auto)]

mod part_fault;
mod plan_fault;

pub use part_fault::{PartFault, check_counts};
pub use plan_fault::PlanFault;
