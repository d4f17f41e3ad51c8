//! The job's file.
ghost use Rattle.std.specs.Prelude.{IfOk, OnOk, [], ◌∷◌};
ghost use Rattle.job_file.specs.Jobs.{job_view, IsJob};
ghost use Rattle.job_file.specs.Faults.{job_in};
ghost use Rattle.refusal_text.specs.Lines.{job_line};
ghost use Rattle.job_walk.specs.Verdict.{Ends, verdict_of};
ghost use Rattle.job_walk.specs.JobOf.{JobText};
ghost use Rattle.job_walk.specs.Names.{job_file};
ghost use Rattle.job_walk.specs.FilesAsked.{HasJob};
ghost use Rattle.job_walk.specs.FileLogs.{Logs};
ghost use Rattle.job_walk.specs.Reads.{ReadsAs, WalksAs};

use crate::Stop;
use crate::file::read_file;
use crate::file_log::FileLog;
use crate::stop::stop_of;
use job_file::{Job, read_job};
use outer_io::Files;
use std::alloc::Global;

/// Reads the job's file, for a node or not.
pub(crate) fn read_job_text<F: Files, L: FileLog>(
    alloc: Global,
    files: &mut F,
    log: &mut L,
    dir: &str,
    node: bool,
) -> Result<Job, Stop>
    ensures reads { ReadsAs dir.now (job_file ∷ []) job_view (λ contents. JobText node contents dir.now)
        (F.reading files.old) (F.reading files.new) result }
    ensures told { IfOk result (λ job. HasJob node (F.reading files.old).told dir.now (job_view job)) }
    ensures is { IfOk result IsJob }
    ensures log { OnOk result (Logs L.has (F.reading files.old).told dir.now (job_file ∷ []) log.old log.new) }
{
    let bytes = read_file(alloc, files, dir, "job.toml")?;
    log.take(&bytes);
    job_in(alloc, &bytes, node)
}

#[tactic(auto, unfolding(refusal_text::specs::Lines::job_line))]
fn job_in(alloc: Global, bytes: &[u8], node: bool) -> Result<Job, Stop>
    ensures walks { WalksAs job_view (Ends (verdict_of job_line (job_in node bytes.now))) result }
    ensures is { IfOk result IsJob }
{
    read_job(alloc, bytes, node).map_err(|fault| stop_of(alloc, None, &[], &fault))
}
