//! What a node that is done kept of its own view.
ghost use Rattle.std.specs.Prelude.{◌≡◌, ◌<◌, ◌≤◌, ◌^◌, length};
ghost use Rattle.list_laws.specs.Lists.{joined};
ghost use Rattle.outer_io.specs.Blocks.{Adds};
ghost use Rattle.plan_model.specs.Messages.{messages};
ghost use Rattle.node_talk.specs.Runs.{kept_view};
ghost use Rattle.view_text.specs.ViewText.{view_text, message_lines};
ghost use Rattle.node_text.specs.NodeText.{kept_message};
ghost use Rattle.party_set.specs.Parties.{party_mask};

use job_plan::Plan;
use node_run::NodeDone;
use outer_io::Gather;
use party_names::Names;
use party_set::{Group, MOST_PARTIES, group_of_mask, party_mask};
use view_text::{gather_message_line, gather_view_head, touches};

/// Adds what party `me` kept of its own view: `view NAME`, and the line of each message that it sent or got, with the
/// word that it kept.
pub(crate) fn gather_view<G: Gather>(
    out: &mut G,
    names: &Names,
    plan: &Plan,
    me: u32,
    done: &NodeDone,
)
    requires names { length names.now ≡ plan.now.parties }
    requires party { me < length names.now }
    requires done { length done.now.words ≡ length (messages plan.now) }
    ensures { Adds (view_text names.now (2 ^ me) (kept_view plan.now me done.now))
        (G.gathered out.old) (G.gathered out.new) }
{
    let group = alone(me, names.len());
    gather_view_head(out, names, group);
    gather_kept(out, names, plan, group, done);
}

// The group of one party.
fn alone(party: u32, parties: u32) -> Group
    requires parties { parties ≤ MOST_PARTIES }
    requires party { party < parties }
    ensures { result ≡ record { parties = parties; mask = party_mask party } }
{
    group_of_mask(party_mask(party), parties)
}

// The lines of the messages that a member of the group sent or got.
fn gather_kept<G: Gather>(out: &mut G, names: &Names, plan: &Plan, group: Group, done: &NodeDone)
    requires names { length names.now ≡ plan.now.parties }
    requires group { group.parties ≡ length names.now }
    requires done { length done.now.words ≡ length (messages plan.now) }
    ensures { Adds (message_lines names.now
        (joined (length (messages plan.now)) (kept_message plan.now group.mask done.now)))
        (G.gathered out.old) (G.gathered out.new) }
{
    plan.recall();
    for number in 0..plan.messages() {
        gather_message(out, names, plan, group, done, number);
    }
}

// The line of a message, where a member of the group sent or got it.
fn gather_message<G: Gather>(
    out: &mut G,
    names: &Names,
    plan: &Plan,
    group: Group,
    done: &NodeDone,
    number: u32,
)
    requires names { length names.now ≡ plan.now.parties }
    requires group { group.parties ≡ length names.now }
    requires done { length done.now.words ≡ length (messages plan.now) }
    requires message { number < length (messages plan.now) }
    ensures { Adds (message_lines names.now (kept_message plan.now group.mask done.now number))
        (G.gathered out.old) (G.gathered out.new) }
{
    plan.recall();
    let key = plan.message(number);
    if touches(group, key) {
        gather_message_line(out, names, key, done.kept(number).unwrap_or(0));
    }
}
