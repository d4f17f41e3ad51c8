//! Masks of groups in rising order.
#![tactic(auto)]

mod mask_list;

pub use mask_list::MaskList;
