//! The lines of a node that is done.
ghost use Rattle.std.specs.Prelude.{◌≡◌, ◌+◌, ◌<◌, ◌≤◌, length};
ghost use Rattle.outer_io.specs.Sink.{Writes};
ghost use Rattle.outer_io.specs.Blocks.{Adds};
ghost use Rattle.plan_model.specs.Plans.{session};
ghost use Rattle.plan_model.specs.Messages.{messages};
ghost use Rattle.plan_model.specs.Sound.{IsSound};
ghost use Rattle.text_parts.specs.Parts.{words_text};
ghost use Rattle.value_words.specs.Turned.{column, turned};
ghost use Rattle.view_text.specs.OutLines.{wires_before};
ghost use Rattle.node_text.specs.NodeText.{node_text, outputs_text, session_lines, value_line, output_word, output_words, shown_output};

use crate::view::gather_view;
use job_limits::MOST_WIRES;
use job_plan::Plan;
use node_run::NodeDone;
use outer_io::{Blocks, Failed, Gather, Sink};
use party_names::Names;
use party_set::MOST_PARTIES;
use text_parts::gather_word;
use value_words::{as_numbers, with_bit};
use view_text::{gather_out_head, is_read, value_of};

/// The party of a node that is done, which reads its outputs.
#[derive(Clone, Copy)]
struct Reader<'a> {
    name: &'a str,
    party: u32,
    numeric: &'a [bool],
    plan: &'a Plan,
    done: &'a NodeDone,
}

/// Writes the lines of party `me`, which is done: `out SESSION VALUE READER` and the words of the value's wires, for
/// each session and output value that it reads; and then, where `view` is true, the view of the party alone, with the
/// words that it sent and got. It takes no memory.
#[tactic(auto, unfolding(crate::specs::NodeText::node_text))]
pub fn write_node<S: Sink>(
    sink: &mut S,
    names: &Names,
    numeric: &[bool],
    plan: &Plan,
    me: u32,
    view: bool,
    done: &NodeDone,
) -> Result<(), Failed>
    requires names { length names.now ≡ plan.now.parties }
    requires party { me < length names.now }
    requires outputs { length done.now.outputs ≡ length plan.now.sessions }
    requires words { length done.now.words ≡ length (messages plan.now) }
    ensures { Writes (node_text names.now numeric.now plan.now me view done.now)
        (S.reading sink.old) (S.reading sink.new) result }
{
    let mut blocks = Blocks::new(sink);
    gather_node(&mut blocks, names, numeric, plan, me, view, done);
    blocks.finish()
}

fn gather_node<G: Gather>(
    out: &mut G,
    names: &Names,
    numeric: &[bool],
    plan: &Plan,
    me: u32,
    view: bool,
    done: &NodeDone,
)
    requires names { length names.now ≡ plan.now.parties }
    requires party { me < length names.now }
    requires outputs { length done.now.outputs ≡ length plan.now.sessions }
    requires words { length done.now.words ≡ length (messages plan.now) }
    ensures { Adds (node_text names.now numeric.now plan.now me view done.now)
        (G.gathered out.old) (G.gathered out.new) }
{
    gather_outputs(out, names, numeric, plan, me, done);
    if view {
        gather_view(out, names, plan, me, done);
    }
}

fn gather_outputs<G: Gather>(
    out: &mut G,
    names: &Names,
    numeric: &[bool],
    plan: &Plan,
    me: u32,
    done: &NodeDone,
)
    requires party { me < length names.now }
    requires done { length done.now.outputs ≡ length plan.now.sessions }
    ensures { Adds (outputs_text names.now numeric.now plan.now me done.now) (G.gathered out.old) (G.gathered out.new) }
{
    names.recall();
    plan.recall();
    let reader = Reader {
        name: names.name(me),
        party: me,
        numeric,
        plan,
        done,
    };
    for s in 0..plan.sessions() {
        gather_session(out, &reader, s);
    }
}

fn gather_session<G: Gather>(out: &mut G, reader: &Reader<'_>, s: u32)
    requires sound { IsSound reader.now.plan.now }
    requires party { reader.now.party < MOST_PARTIES }
    requires done { length reader.now.done.now.outputs ≡ length reader.now.plan.now.sessions }
    requires session { s < length reader.now.plan.now.sessions }
    ensures { Adds (session_lines reader.now.name.now reader.now.numeric.now reader.now.plan.now reader.now.party
        reader.now.done.now s) (G.gathered out.old) (G.gathered out.new) }
{
    let mut first = 0;
    for v in 0..reader.plan.part(s).outputs().len() {
        gather_value(out, reader, s, v, first);
        first += value_of(reader.plan, s, v).width;
    }
}

// The line of value v, whose first wire this is, if the party reads the value.
fn gather_value<G: Gather>(out: &mut G, reader: &Reader<'_>, s: u32, v: usize, first: u32)
    requires sound { IsSound reader.now.plan.now }
    requires party { reader.now.party < MOST_PARTIES }
    requires done { length reader.now.done.now.outputs ≡ length reader.now.plan.now.sessions }
    requires session { s < length reader.now.plan.now.sessions }
    requires value { v < length (session reader.now.plan.now s).outputs }
    requires first { first ≡ wires_before (session reader.now.plan.now s) v }
    ensures { Adds (value_line reader.now.name.now reader.now.numeric.now reader.now.plan.now reader.now.party
        reader.now.done.now s v) (G.gathered out.old) (G.gathered out.new) }
{
    if !is_read(reader.plan, s, v, reader.party) {
        return;
    }
    gather_out_head(out, s, v, reader.name);
    gather_shown(out, reader, s, first, value_of(reader.plan, s, v).width);
    out.push(b"\n");
}

/// What is written of `width` output wires from wire `first` on: their words, or numbers.
fn gather_shown<G: Gather>(out: &mut G, reader: &Reader<'_>, s: u32, first: u32, width: u32)
    requires few { first + width ≤ MOST_WIRES }
    requires session { s < length reader.now.done.now.outputs }
    ensures { Adds (words_text (shown_output reader.now.numeric.now reader.now.plan.now reader.now.done.now s first
        width)) (G.gathered out.old) (G.gathered out.new) }
{
    if as_numbers(reader.numeric, s, width) {
        gather_numbers(out, reader.done, s, first, width, reader.plan.ring().bits());
    } else {
        gather_words(out, reader.done, s, first, width);
    }
}

/// The number in each lane that these wires stand for, each after a space.
fn gather_numbers<G: Gather>(
    out: &mut G,
    done: &NodeDone,
    s: u32,
    first: u32,
    width: u32,
    lanes: u32,
)
    requires few { first + width ≤ MOST_WIRES }
    requires narrow { width ≤ 64 }
    requires session { s < length done.now.outputs }
    ensures { Adds (words_text (turned width (output_word done.now s first) lanes))
        (G.gathered out.old) (G.gathered out.new) }
{
    for lane in 0..lanes {
        gather_word(out, number_of(done, s, first, width, lane));
    }
}

/// The number in this lane that the wires stand for.
fn number_of(done: &NodeDone, s: u32, first: u32, width: u32, lane: u32) -> u64
    requires few { first + width ≤ MOST_WIRES }
    requires narrow { width ≤ 64 }
    requires session { s < length done.now.outputs }
    ensures { result ≡ column width (output_word done.now s first) lane }
{
    let mut number = 0;
    for wire in 0..width {
        number = with_bit(
            number,
            wire,
            done.delivered(s, first + wire).unwrap_or(0),
            lane,
        );
    }
    number
}

// The words of `width` output wires from wire `first` on, each after a space.
fn gather_words<G: Gather>(out: &mut G, done: &NodeDone, s: u32, first: u32, width: u32)
    requires few { first + width ≤ MOST_WIRES }
    requires session { s < length done.now.outputs }
    ensures { Adds (words_text (output_words done.now s first width)) (G.gathered out.old) (G.gathered out.new) }
{
    for i in 0..width {
        gather_word(out, done.delivered(s, first + i).unwrap_or(0));
    }
}
