//! The group of which is asked what it sees.
ghost use Rattle.std.specs.Prelude.{◌≡◌, true, Some, IfOk, IfSome, length};
ghost use Rattle.std.specs.Option.{is_some};
ghost use Rattle.group_text.specs.GroupTexts.{group_in};
ghost use Rattle.refusal_text.specs.Lines.{group_line};
ghost use Rattle.job_walk.specs.Verdict.{Ends, verdict_of};
ghost use Rattle.job_walk.specs.JobOf.{GroupOf};
ghost use Rattle.job_walk.specs.Reads.{WalksAs};
ghost use Rattle.job_walk.specs.Seen.{text_view};

use crate::Stop;
use crate::stop::stop_of;
use group_text::read_group;
use party_names::Names;
use party_set::Group;
use std::alloc::Global;

/// The group that a text asks for, if there is a text.
pub(crate) fn asked_group(
    alloc: Global,
    asked: Option<&str>,
    names: &Names,
) -> Result<Option<Group>, Stop>
    ensures walks { WalksAs (λ group. group) (GroupOf names.now (text_view asked.entry)) result }
    ensures parties { IfOk result (λ found. IfSome found (λ group. group.parties ≡ length names.now)) }
    ensures asked { IfOk result (λ found. is_some found ≡ is_some asked.entry) }
{
    match asked {
        Some(text) => some_group(alloc, text, names),
        None => Ok(None),
    }
}

fn some_group(alloc: Global, text: &str, names: &Names) -> Result<Option<Group>, Stop>
    ensures walks { WalksAs (λ group. group) (GroupOf names.now (Some text.now)) result }
    ensures parties { IfOk result (λ found. IfSome found (λ group. group.parties ≡ length names.now)) }
    ensures asked { IfOk result (λ found. is_some found ≡ true) }
{
    let group = group_of(alloc, text, names)?;
    Ok(Some(group))
}

#[tactic(auto, unfolding(refusal_text::specs::Lines::group_line))]
fn group_of(alloc: Global, text: &str, names: &Names) -> Result<Group, Stop>
    ensures walks { WalksAs (λ group. group)
        (Ends (verdict_of group_line (group_in names.now text.now))) result }
    ensures parties { IfOk result (λ group. group.parties ≡ length names.now) }
{
    read_group(text, names).map_err(|fault| stop_of(alloc, None, &[], &fault))
}
