//! The text of what a group sees of a run.
ghost use Rattle.std.specs.Prelude.{◌≡◌, ◌<◌, ◌∷◌, [], length};
ghost use Rattle.outer_io.specs.Blocks.{Adds};
ghost use Rattle.plan_model.specs.Messages.{messages};
ghost use Rattle.plan_model.specs.Plans.{slots};
ghost use Rattle.plan_model.specs.Sound.{IsSound};
ghost use Rattle.share_world.specs.Worlds.{view};
ghost use Rattle.view_text.specs.ViewText.{view_text};
ghost use Rattle.view_text.specs.Seen.{IsMessage};
ghost use Rattle.output_text.specs.Finished.{IsFinished, OfRunsWorld};
ghost use Rattle.output_text.specs.Seen.{seen_lines, slot_seen, session_seen};

use crate::finished_run::FinishedRun;
use desk_workers::Done;
use job_plan::{Key, Plan};
use outer_io::Gather;
use party_names::Names;
use party_set::Group;
use view_text::{gather_message_line, gather_view_head, touches};

/// Adds what a group sees of a run that is over: `view GROUP`, and then for each message that a member sends or
/// receives, in order, `SESSION SLOT SHARE SENDER RECEIVER WORD`, with the word that its cell holds. It goes through
/// each message once.
pub(crate) fn gather_view<G: Gather>(out: &mut G, run: &FinishedRun<'_>, group: Group)
    requires group { group.parties ≡ length run.now.names.now }
    requires run { IsFinished run.now }
    ensures { OfRunsWorld run.now (λ w. Adds
        (view_text run.now.names.now group.mask (view w group.mask)) (G.gathered out.old) (G.gathered out.new)) }
{
    gather_view_head(out, run.names, group);
    gather_messages(out, run, group);
}

fn gather_messages<G: Gather>(out: &mut G, run: &FinishedRun<'_>, group: Group)
    requires group { group.parties ≡ length run.now.names.now }
    requires run { IsFinished run.now }
    ensures { OfRunsWorld run.now (λ w. Adds
        (seen_lines run.now.names.now w group.mask (messages w.plan)) (G.gathered out.old) (G.gathered out.new)) }
{
    run.plan.recall();
    for s in 0..run.plan.sessions() {
        gather_session(out, run, group, s);
    }
}

fn gather_session<G: Gather>(out: &mut G, run: &FinishedRun<'_>, group: Group, s: u32)
    requires group { group.parties ≡ length run.now.names.now }
    requires sound { IsSound run.now.plan.now }
    requires run { IsFinished run.now }
    requires session { s < length run.now.plan.now.sessions }
    ensures { OfRunsWorld run.now (λ w. Adds
        (session_seen run.now.names.now w group.mask s) (G.gathered out.old) (G.gathered out.new)) }
{
    for k in 0..run.plan.slots(s) {
        gather_slot(out, run, group, s, k);
    }
}

// The messages of slot k of session s: the transfers of its pattern, under the numbers from its first one on.
fn gather_slot<G: Gather>(out: &mut G, run: &FinishedRun<'_>, group: Group, s: u32, k: u32)
    requires group { group.parties ≡ length run.now.names.now }
    requires sound { IsSound run.now.plan.now }
    requires run { IsFinished run.now }
    requires session { s < length run.now.plan.now.sessions }
    requires slot { k < slots run.now.plan.now s }
    ensures { OfRunsWorld run.now (λ w. Adds
        (slot_seen run.now.names.now w group.mask s k) (G.gathered out.old) (G.gathered out.new)) }
{
    let first = run.plan.first(s, k);
    let transfers = run.plan.transfers(run.plan.pattern(s, k));
    for i in 0..transfers.len() {
        let key = transfers[i].named(s, k);
        gather_message(out, run, group, first + i as u32, key);
    }
}

// The line of message n, where a member of the group sends or receives it.
fn gather_message<G: Gather>(out: &mut G, run: &FinishedRun<'_>, group: Group, n: u32, key: Key)
    requires group { group.parties ≡ length run.now.names.now }
    requires run { IsFinished run.now }
    requires message { IsMessage run.now.plan.now n key }
    ensures { OfRunsWorld run.now (λ w. Adds
        (seen_lines run.now.names.now w group.mask (key ∷ [])) (G.gathered out.old) (G.gathered out.new)) }
{
    if touches(group, key) {
        gather_message_line(out, run.names, key, run.done.cell(n));
    }
}
