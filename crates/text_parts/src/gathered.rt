//! Numbers and groups as pieces of a text that is gathered.
ghost use Rattle.std.specs.Prelude.{◌≡◌, ◌<◌, ◌++◌, codes, decimal, length};
ghost use Rattle.list_laws.specs.Lists.{only_if};
ghost use Rattle.outer_io.specs.Blocks.{Adds};
ghost use Rattle.text_parts.specs.Parts.{group_text, member_text};

use itoa::Buffer;
use outer_io::Gather;
use party_names::Names;
use party_set::{Group, party_mask};

/// Adds the digits of a number.
pub fn gather_number<G: Gather>(out: &mut G, number: u64)
    ensures { Adds (decimal number) (G.gathered out.old) (G.gathered out.new) }
{
    out.push(Buffer::new().format(number).as_bytes());
}

/// Adds a word after a space.
#[tactic(auto, using(outer_io::proofs::GatheredTexts::adds_then))]
pub fn gather_word<G: Gather>(out: &mut G, word: u64)
    ensures { Adds (codes " " ++ decimal word) (G.gathered out.old) (G.gathered out.new) }
{
    out.push(b" ");
    gather_number(out, word);
}

/// Adds the names of a group's members, in order and joined by `+`, or `0` for the empty group.
pub fn gather_group<G: Gather>(out: &mut G, group: Group, names: &Names)
    requires { group.parties ≡ length names.now }
    ensures { Adds (group_text names.now group.mask) (G.gathered out.old) (G.gathered out.new) }
{
    if group.mask() == 0 {
        out.push(b"0");
        return;
    }
    for party in 0..names.len() {
        gather_member(out, group, names, party);
    }
}

// Adds the name of a party, if it is a member, after a `+` where a lower party is one.
fn gather_member<G: Gather>(out: &mut G, group: Group, names: &Names, party: u32)
    requires parties { group.parties ≡ length names.now }
    requires party { party < length names.now }
    ensures { Adds (member_text names.now group.mask party) (G.gathered out.old) (G.gathered out.new) }
{
    if !group.has(party) {
        return;
    }
    gather_plus(out, group.mask() % party_mask(party) != 0);
    out.push(names.name(party).as_bytes());
}

#[tactic(auto, using(outer_io::proofs::GatheredTexts::adds_nothing))]
fn gather_plus<G: Gather>(out: &mut G, wanted: bool)
    ensures { Adds (only_if wanted (codes "+")) (G.gathered out.old) (G.gathered out.new) }
{
    if wanted {
        out.push(b"+");
    }
}
