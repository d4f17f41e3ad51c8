//! One party of a job, by itself.
ghost use Rattle.std.specs.Prelude.{◌≡◌, ◌<◌, true, [], ◌∷◌, ◌++◌, Ok, IfOk, length};
ghost use Rattle.outer_io.specs.Files.{FilesReading};
ghost use Rattle.party_names.specs.Names.{party_named};
ghost use Rattle.party_file.specs.Forms.{form_of, FitsPlan};
ghost use Rattle.job_digest.specs.Digests.{HasFiles};
ghost use Rattle.job_digest.specs.declared.JobDigest.{JobDigest};
ghost use Rattle.job_file.specs.Jobs.{job_view, IsJob};
ghost use Rattle.job_walk.specs.Names.{job_file, party_file};
ghost use Rattle.job_walk.specs.FilesAsked.{plan_files};
ghost use Rattle.job_walk.specs.JobReads.{ReadsNode};
ghost use Rattle.job_walk.specs.FileLogs.{Logs};
ghost use Rattle.job_walk.specs.Verdict.{Ends};
ghost use Rattle.job_walk.specs.JobOf.{JobText};
ghost use Rattle.job_walk.specs.NodeOf.{party_of, frames_of, NodeAt};
ghost use Rattle.job_walk.specs.Reads.{ReadsAs, WalksAs};
ghost use Rattle.job_walk.specs.Seen.{node_with};

use crate::Stop;
use crate::job::read_job_text;
use crate::party::read_party_file;
use crate::plan::make_plan;
use crate::sessions::{numeric_sessions, read_sessions};
use crate::stop::refusal;
use crate::structure::structure_of;
use frame_code::FrameForm;
use job_digest::JobDigest;
use job_file::Job;
use job_plan::Plan;
use outer_io::{Files, Hosts};
use party_file::PartyData;
use party_names::Names;
use refusal_text::name_line;
use std::alloc::Global;

/// What one party needs to run by itself: the names of all parties, where they are met, the form of their frames,
/// whether each writes its own view, its number, the plan, whether the words of each session are numbers, its own
/// inputs and tapes, and the digest of the job.
#[derive(Drop)]
pub struct NodeJob {
    pub names: Names,
    pub hosts: Hosts,
    pub port: u16,
    pub form: FrameForm,
    pub view: bool,
    pub me: u32,
    pub plan: Plan,
    pub numeric: Vec<bool>,
    pub given: PartyData,
    pub digest: [u8; 32],
}

/// Reads the job's file, the circuits' files, and the file of the party of this name.
pub fn read_node<F: Files>(
    alloc: Global,
    files: &mut F,
    dir: &str,
    name: &str,
) -> Result<NodeJob, Stop>
    ensures reads { ReadsNode dir.now name.now (F.reading files.old) (F.reading files.new) result }
    ensures names { IfOk result (λ job. length job.names ≡ job.plan.parties) }
    ensures party { IfOk result (λ job. job.me < job.plan.parties) }
    ensures fits { IfOk result (λ job. FitsPlan job.plan job.me (form_of job.given)) }
{
    let mut digest = JobDigest::new();
    let job = read_job_text(alloc, files, &mut digest, dir, true)?;
    let rest = read_rest(alloc, files, digest, dir, name, &job);
    let Job {
        names,
        hosts,
        port,
        short_frames,
        own_views,
        ..
    } = job;
    let rest = rest?;
    let NodeRest {
        me,
        plan,
        numeric,
        given,
        digest,
    } = rest;
    Ok(NodeJob {
        names,
        hosts,
        port,
        form: frames_of(short_frames),
        view: own_views,
        me,
        plan,
        numeric,
        given,
        digest,
    })
}

// The form of frames, short or not.
fn frames_of(short: bool) -> FrameForm
    ensures { result ≡ frames_of short }
{
    if short {
        FrameForm::Short
    } else {
        FrameForm::Named
    }
}

// What is read beside the job's file.
#[derive(Drop)]
struct NodeRest {
    me: u32,
    plan: Plan,
    numeric: Vec<bool>,
    given: PartyData,
    digest: [u8; 32],
}

// Reads the circuits' files of a job, and the file of the party of this name. The digest has the job's file.
fn read_rest<F: Files>(
    alloc: Global,
    files: &mut F,
    digest: JobDigest,
    dir: &str,
    name: &str,
    job: &Job,
) -> Result<NodeRest, Stop>
    requires { IsJob job.now }
    ensures reads { (before : FilesReading) (start : JobDigest) → HasFiles start []
        → Logs HasFiles before.told dir.now (job_file ∷ []) start digest
        → ReadsAs dir.now (job_file ∷ []) job_view (λ contents. JobText true contents dir.now)
        before (F.reading files.old) (Ok job.now)
        → ReadsAs dir.now (plan_files (job_view job.now) ++ (party_file name.now ∷ [])) (node_with job.now)
        (λ contents. NodeAt contents dir.now name.now) before (F.reading files.new) result }
    ensures names { IfOk result (λ rest. length job.now.names ≡ rest.plan.parties) }
    ensures party { IfOk result (λ rest. rest.me < rest.plan.parties) }
    ensures fits { IfOk result (λ rest. FitsPlan rest.plan rest.me (form_of rest.given)) }
{
    let mut log = digest;
    let numeric = numeric_sessions(alloc, job)?;
    let me = party_of(alloc, &job.names, name)?;
    let groups = structure_of(alloc, job)?;
    let parts = read_sessions(alloc, files, &mut log, dir, job)?;
    let plan = make_plan(alloc, job, &groups, parts)?;
    let given = read_party_file(alloc, files, dir, &numeric, &plan, me, name)?;
    Ok(NodeRest {
        me,
        plan,
        numeric,
        given,
        digest: log.finish(),
    })
}

fn party_of(alloc: Global, names: &Names, name: &str) -> Result<u32, Stop>
    ensures walks { WalksAs (λ me. me) (Ends (party_of (party_named names.now name.now))) result }
    ensures party { IfOk result (λ me. me < length names.now) }
{
    match names.number(name) {
        Some(me) => Ok(me),
        None => Err(refusal(name_line(alloc))),
    }
}
