//! The lines of a view.
ghost use Rattle.std.specs.Prelude.{◌≡◌, ◌<◌, length};
ghost use Rattle.outer_io.specs.Blocks.{Adds};
ghost use Rattle.share_world.specs.Worlds.{touches};
ghost use Rattle.view_text.specs.ViewText.{view_head, message_line, key_place, key_parties};

use job_plan::Key;
use outer_io::Gather;
use party_names::Names;
use party_set::Group;
use text_parts::{gather_group, gather_number, gather_word};

/// Adds the first line of a view: `view GROUP`.
pub fn gather_view_head<G: Gather>(out: &mut G, names: &Names, group: Group)
    requires { group.parties ≡ length names.now }
    ensures { Adds (view_head names.now group.mask) (G.gathered out.old) (G.gathered out.new) }
{
    out.push(b"view ");
    gather_group(out, group, names);
    out.push(b"\n");
}

/// Adds the line of a message and its word: `SESSION SLOT SHARE SENDER RECEIVER WORD`.
pub fn gather_message_line<G: Gather>(out: &mut G, names: &Names, key: Key, word: u64)
    requires sender { key.sender < length names.now }
    requires receiver { key.receiver < length names.now }
    ensures { Adds (message_line names.now key word) (G.gathered out.old) (G.gathered out.new) }
{
    gather_place(out, key);
    gather_parties(out, names, key);
    gather_word(out, word);
    out.push(b"\n");
}

/// Whether a member of the group sends or receives the message.
pub fn touches(group: Group, key: Key) -> bool
    requires sender { key.sender < group.parties }
    requires receiver { key.receiver < group.parties }
    ensures { result ≡ touches group.mask key }
{
    group.has(key.sender) || group.has(key.receiver)
}

fn gather_place<G: Gather>(out: &mut G, key: Key)
    ensures { Adds (key_place key) (G.gathered out.old) (G.gathered out.new) }
{
    gather_number(out, key.session as u64);
    out.push(b" ");
    gather_number(out, key.slot as u64);
    out.push(b" ");
    gather_number(out, key.share as u64);
}

fn gather_parties<G: Gather>(out: &mut G, names: &Names, key: Key)
    requires sender { key.sender < length names.now }
    requires receiver { key.receiver < length names.now }
    ensures { Adds (key_parties names.now key) (G.gathered out.old) (G.gathered out.new) }
{
    out.push(b" ");
    out.push(names.name(key.sender).as_bytes());
    out.push(b" ");
    out.push(names.name(key.receiver).as_bytes());
}
