//! That each job has a document: a text of TOML that is read as this job. No code that runs.
#![tactic(auto)]

mod laws;

pub use laws::each_job_has_a_document;
