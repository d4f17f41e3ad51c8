//! Laws of products of shared values: that they need Q2. No code that runs.
#![tactic(auto)]

mod needed;

pub use needed::{products_need_q2, q2_gives_each_pair_a_party};
