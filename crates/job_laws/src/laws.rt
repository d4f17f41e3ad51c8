//! The laws.
ghost use Rattle.job_laws.specs.Documents.{DocumentsSayTheirJobs, ReadJobsAreWithin};

/// A job is within the limits wherever it was read from a file, and each job within them has a document: a text of TOML
/// that writes this is read as the job.
pub fn each_job_has_a_document()
    ensures said { DocumentsSayTheirJobs }
    ensures within { ReadJobsAreWithin }
{}
