//! The structure of a job: its formula or list, the maximal tolerated groups, and the test that no two of them are all
//! parties.
ghost use Rattle.std.specs.Prelude.{◌≡◌, All, IfOk, length, map};
ghost use Rattle.party_set.specs.Parties.{IsQ2, Members};
ghost use Rattle.job_file.specs.Forms.{by_formula, by_list};
ghost use Rattle.job_file.specs.Jobs.{adversary_view, job_view, HasParties};
ghost use Rattle.job_walk.specs.Verdict.{Ends};
ghost use Rattle.job_walk.specs.JobOf.{FormulaOf, groups_of, GroupsOf, Q2Of, StructureOf};
ghost use Rattle.job_walk.specs.Reads.{WalksAs};

use crate::Stop;
use crate::stop::stop_of;
use group_formula::{Formula, read_formula};
use job_file::{Adversary, Job};
use maximal_groups::{Family, Listed, find_groups};
use party_names::Names;
use party_set::{Group, Groups};
use q2_test::covering_pair;
use refusal_text::covering_line;
use std::alloc::Global;

/// The maximal tolerated groups of a job, of which no two together are all parties.
pub(crate) fn structure_of(alloc: Global, job: &Job) -> Result<Groups, Stop>
    requires { HasParties (length job.now.names) job.now.adversary }
    ensures walks { WalksAs (λ groups. groups) (StructureOf (job_view job.now)) result }
    ensures parties { IfOk result (λ groups. groups.parties ≡ length job.now.names) }
    ensures q2 { IfOk result IsQ2 }
{
    let groups = maximal_groups(alloc, &job.adversary, &job.names)?;
    with_q2(alloc, job, groups)
}

#[tactic(auto, unfolding(crate::specs::JobOf::GroupsOf))]
fn maximal_groups(alloc: Global, adversary: &Adversary, names: &Names) -> Result<Groups, Stop>
    requires { HasParties (length names.now) adversary.now }
    ensures walks { WalksAs (λ groups. groups)
        (GroupsOf names.now (adversary_view adversary.now)) result }
    ensures parties { IfOk result (λ groups. groups.parties ≡ length names.now) }
{
    match adversary {
        Adversary::Formula(text) => groups_of_formula(alloc, text.as_str(), names),
        Adversary::Tolerated(groups) => groups_of_list(alloc, groups, names),
    }
}

fn groups_of_formula(alloc: Global, text: &str, names: &Names) -> Result<Groups, Stop>
    ensures walks { WalksAs (λ groups. groups) (GroupsOf names.now (by_formula text.now)) result }
    ensures parties { IfOk result (λ groups. groups.parties ≡ length names.now) }
{
    let formula = formula_of(alloc, text, names)?;
    groups_of(alloc, &formula)
}

#[tactic(auto, unfolding(crate::specs::JobOf::FormulaOf, refusal_text::specs::Lines::formula_line))]
fn formula_of(alloc: Global, text: &str, names: &Names) -> Result<Formula, Stop>
    ensures walks { WalksAs (λ formula. formula) (FormulaOf names.now text.now) result }
    ensures parties { IfOk result (λ formula. formula.parties ≡ length names.now) }
{
    read_formula(alloc, text, names).map_err(|fault| stop_of(alloc, None, &[], &fault))
}

#[tactic(auto, unfolding(crate::specs::JobOf::GroupsOf))]
fn groups_of_list(alloc: Global, groups: &[Group], names: &Names) -> Result<Groups, Stop>
    requires { All (λ (group : Members). group.parties ≡ length names.now) groups.now }
    ensures walks { WalksAs (λ groups. groups)
        (GroupsOf names.now (by_list (map (λ (group : Members). group.mask) groups.now))) result }
    ensures parties { IfOk result (λ groups. groups.parties ≡ length names.now) }
{
    let listed = Listed::make(names.len(), Vec::from_slice(alloc, groups)?);
    groups_of(alloc, &listed)
}

#[tactic(auto, unfolding(crate::specs::JobOf::groups_of, crate::specs::JobOf::few_groups, refusal_text::specs::Lines::groups_line))]
fn groups_of<F: Family>(alloc: Global, family: &F) -> Result<Groups, Stop>
    ensures walks { WalksAs (λ groups. groups)
        (Ends (groups_of (F.count family.now) (F.is_tolerated family.now))) result }
    ensures parties { IfOk result (λ groups. groups.parties ≡ F.count family.now) }
{
    find_groups(alloc, family).map_err(|fault| stop_of(alloc, None, &[], &fault))
}

#[tactic(auto, unfolding(crate::specs::JobOf::Q2Of))]
fn with_q2(alloc: Global, job: &Job, groups: Groups) -> Result<Groups, Stop>
    requires { groups.parties ≡ length job.now.names }
    ensures walks { WalksAs (λ same. same) (Q2Of (job_view job.now) groups) result }
    ensures same { IfOk result (λ same. same ≡ groups) }
    ensures q2 { IfOk result IsQ2 }
{
    let Some((first, second)) = covering_pair(&groups) else {
        return Ok(groups);
    };
    let line = covering_line(alloc, &job.names, groups.get(first), groups.get(second))?;
    Err(Stop::Covering(line))
}
