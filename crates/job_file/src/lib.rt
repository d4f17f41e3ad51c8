//! The job of a file `job.toml`, version 1 or 2, or its first fault.
#![tactic(auto)]

mod check;
mod document;
mod fault;
mod field;
mod job;
mod layout;
mod limits;
mod owner;
mod parties;
mod products;
mod session;
mod texts;
mod told;
mod top;
mod values;

pub use document::read_job;
pub use fault::JobFault;
pub use field::JobField;
pub use job::{Adversary, Job, JobSession};
pub use layout::SessionLayout;
pub use limits::{LAST_PORT, LONGEST_FILE_NAME, LONGEST_HOST, MOST_TOLERATED};
pub use owner::JobOwner;
pub use products::Products;
