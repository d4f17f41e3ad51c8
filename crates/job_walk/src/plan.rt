//! The plan of a job.
ghost use Rattle.std.specs.Prelude.{◌≡◌, ◌≤◌, false, [], ◌∷◌, All, Ok, IfOk, IfSome, length};
ghost use Rattle.std.specs.Option.{is_some};
ghost use Rattle.party_set.specs.Parties.{IsQ2};
ghost use Rattle.plan_model.specs.Plans.{plan_of, structure};
ghost use Rattle.session_slots.specs.Carries.{AllFit, keeping};
ghost use Rattle.session_slots.specs.SoundSessions.{IsSoundSession};
ghost use Rattle.outer_io.specs.Files.{FilesReading};
ghost use Rattle.job_file.specs.Jobs.{job_view, IsJob};
ghost use Rattle.job_walk.specs.JobOf.{JobText, PlanOf, PlanAt};
ghost use Rattle.job_walk.specs.Names.{job_file};
ghost use Rattle.job_walk.specs.FilesAsked.{plan_files};
ghost use Rattle.job_walk.specs.JobReads.{ReadsPlan};
ghost use Rattle.job_walk.specs.Seen.{planned_with, text_view};
ghost use Rattle.job_walk.specs.Reads.{ReadsAs, WalksAs};

use crate::Stop;
use crate::file_log::NoLog;
use crate::group::asked_group;
use crate::job::read_job_text;
use crate::sessions::{numeric_sessions, read_sessions};
use crate::stop::stop_of;
use crate::structure::structure_of;
use job_file::Job;
use job_limits::MOST_SESSIONS;
use job_plan::{Plan, SessionPart};
use outer_io::Files;
use party_names::Names;
use party_set::{Group, Groups};
use product_duty::Duty;
use share_layout::Layout;
use std::alloc::Global;

/// What the job's file and the circuits' files give, and the group that is asked for. `numeric` tells of each session
/// whether its words are numbers.
#[derive(Drop)]
pub struct Planned {
    pub names: Names,
    pub group: Option<Group>,
    pub groups: Groups,
    pub plan: Plan,
    pub numeric: Vec<bool>,
}

/// Reads the job's file, the group that a text asks for, if there is a text, and the circuits' files.
pub fn read_planned<F: Files>(
    alloc: Global,
    files: &mut F,
    dir: &str,
    asked: Option<&str>,
) -> Result<Planned, Stop>
    ensures reads { ReadsPlan dir.now (text_view asked.entry) (F.reading files.old) (F.reading files.new) result }
    ensures names { IfOk result (λ planned. length planned.names ≡ planned.plan.parties) }
    ensures group { IfOk result (λ planned. IfSome planned.group
        (λ group. group.parties ≡ length planned.names)) }
    ensures asked { IfOk result (λ planned. is_some planned.group ≡ is_some asked.entry) }
    ensures groups { IfOk result (λ planned. planned.groups ≡ structure planned.plan) }
{
    let job = read_job_text(alloc, files, &mut NoLog, dir, false)?;
    let rest = read_rest(alloc, files, dir, asked, &job);
    let Job { names, .. } = job;
    let rest = rest?;
    let PlanRest {
        group,
        groups,
        plan,
        numeric,
    } = rest;
    Ok(Planned {
        names,
        group,
        groups,
        plan,
        numeric,
    })
}

// What is read beside the job's file.
#[derive(Drop)]
struct PlanRest {
    group: Option<Group>,
    groups: Groups,
    plan: Plan,
    numeric: Vec<bool>,
}

// Reads the group that a text asks for, if there is a text, and the circuits' files of a job.
fn read_rest<F: Files>(
    alloc: Global,
    files: &mut F,
    dir: &str,
    asked: Option<&str>,
    job: &Job,
) -> Result<PlanRest, Stop>
    requires { IsJob job.now }
    ensures reads { (before : FilesReading)
        → ReadsAs dir.now (job_file ∷ []) job_view (λ contents. JobText false contents dir.now)
        before (F.reading files.old) (Ok job.now)
        → ReadsAs dir.now (plan_files (job_view job.now)) (planned_with job.now)
        (λ contents. PlanAt contents dir.now (text_view asked.entry)) before (F.reading files.new) result }
    ensures names { IfOk result (λ rest. length job.now.names ≡ rest.plan.parties) }
    ensures group { IfOk result (λ rest. IfSome rest.group
        (λ group. group.parties ≡ length job.now.names)) }
    ensures asked { IfOk result (λ rest. is_some rest.group ≡ is_some asked.entry) }
    ensures groups { IfOk result (λ rest. rest.groups ≡ structure rest.plan) }
{
    let numeric = numeric_sessions(alloc, job)?;
    let group = asked_group(alloc, asked, &job.names)?;
    let groups = structure_of(alloc, job)?;
    let parts = read_sessions(alloc, files, &mut NoLog, dir, job)?;
    let plan = make_plan(alloc, job, &groups, parts)?;
    Ok(PlanRest {
        group,
        groups,
        plan,
        numeric,
    })
}

#[tactic(auto, unfolding(crate::specs::JobOf::PlanOf, refusal_text::specs::Lines::plan_line))]
pub(crate) fn make_plan(
    alloc: Global,
    job: &Job,
    groups: &Groups,
    parts: Vec<SessionPart>,
) -> Result<Plan, Stop>
    requires parties { groups.now.parties ≡ length job.now.names }
    requires q2 { IsQ2 groups.now }
    requires few { length parts.items ≤ MOST_SESSIONS }
    requires sound { All (IsSoundSession (length job.now.names)) parts.items }
    requires fit { AllFit parts.items }
    ensures walks { WalksAs (λ plan. plan)
        (PlanOf (job_view job.now) (plan_of job.now.ring groups.now (keeping parts.items))) result }
    ensures is { IfOk result (λ plan. plan ≡ plan_of job.now.ring groups.now (keeping parts.items)) }
{
    let layout = Layout::make(alloc, groups)?;
    let duty = Duty::make(alloc, groups)?;
    Plan::make(alloc, job.ring, layout, duty, parts).map_err(|fault| stop_of(
        alloc,
        Some(&job.names),
        &[],
        &fault,
    ))
}
