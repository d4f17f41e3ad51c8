//! The line of a fault.
ghost use Rattle.outer_io.specs.Sink.{Writes};
ghost use Rattle.outer_io.specs.Blocks.{Adds};
ghost use Rattle.party_names.specs.Names.{name_at};
ghost use Rattle.frame_code.specs.Frames.{shown};
ghost use Rattle.node_text.specs.FaultLines.{fault_line, short_line, closed_line, frame_line, job_line, fault_head};

use crate::hex::gather_hex;
use frame_code::{FrameBytes, HELLO_BYTES};
use node_talk::NodeFault;
use outer_io::{Blocks, Failed, Gather, Sink};
use party_names::Names;
use text_parts::gather_number;

/// Writes the line of the fault that ended a node's run. The names are those of the parties.
pub fn write_fault<S: Sink>(sink: &mut S, names: &Names, fault: &NodeFault) -> Result<(), Failed>
    ensures { Writes (fault_line names.now fault.now) (S.reading sink.old) (S.reading sink.new) result }
{
    let mut blocks = Blocks::new(sink);
    gather_fault(&mut blocks, names, fault);
    blocks.finish()
}

fn gather_fault<G: Gather>(out: &mut G, names: &Names, fault: &NodeFault)
    ensures { Adds (fault_line names.now fault.now) (G.gathered out.old) (G.gathered out.new) }
{
    match fault {
        NodeFault::Link { peer } => gather_short(out, "link", names, *peer),
        NodeFault::Closed { peer, at } => gather_closed(out, names, *peer, *at),
        NodeFault::BadFrame { peer, at, bytes } => gather_frame(out, names, *peer, *at, bytes),
        NodeFault::OtherJob { peer, ours, theirs } => gather_job(out, names, *peer, ours, theirs),
        NodeFault::NoThread { peer } => gather_short(out, "thread", names, *peer),
    }
}

#[tactic(auto, using(outer_io::proofs::GatheredTexts::adds_then))]
fn gather_short<G: Gather>(out: &mut G, fault: &str, names: &Names, peer: u32)
    ensures { Adds (short_line fault.now (name_at names.now peer)) (G.gathered out.old) (G.gathered out.new) }
{
    gather_head(out, fault, names, peer);
    out.push(b"\n");
}

#[tactic(auto, using(outer_io::proofs::GatheredTexts::adds_then))]
fn gather_closed<G: Gather>(out: &mut G, names: &Names, peer: u32, at: u64)
    ensures { Adds (closed_line (name_at names.now peer) at) (G.gathered out.old) (G.gathered out.new) }
{
    gather_head(out, "closed", names, peer);
    out.push(b" at=");
    gather_number(out, at);
    out.push(b"\n");
}

#[tactic(auto, using(outer_io::proofs::GatheredTexts::adds_then))]
fn gather_frame<G: Gather>(out: &mut G, names: &Names, peer: u32, at: u64, bytes: &FrameBytes)
    ensures { Adds (frame_line (name_at names.now peer) at (shown bytes.now))
        (G.gathered out.old) (G.gathered out.new) }
{
    gather_head(out, "frame", names, peer);
    out.push(b" at=");
    gather_number(out, at);
    out.push(b" bytes=");
    gather_hex(out, bytes.as_slice());
    out.push(b"\n");
}

#[tactic(auto, using(outer_io::proofs::GatheredTexts::adds_then))]
fn gather_job<G: Gather>(
    out: &mut G,
    names: &Names,
    peer: u32,
    ours: &[u8; HELLO_BYTES],
    theirs: &[u8; HELLO_BYTES],
)
    ensures { Adds (job_line (name_at names.now peer) ours.now theirs.now)
        (G.gathered out.old) (G.gathered out.new) }
{
    gather_head(out, "job", names, peer);
    out.push(b" ours=");
    gather_hex(out, ours);
    out.push(b" theirs=");
    gather_hex(out, theirs);
    out.push(b"\n");
}

#[tactic(auto, using(outer_io::proofs::GatheredTexts::adds_then))]
fn gather_head<G: Gather>(out: &mut G, fault: &str, names: &Names, peer: u32)
    ensures { Adds (fault_head fault.now (name_at names.now peer)) (G.gathered out.old) (G.gathered out.new) }
{
    out.push(b"fault ");
    out.push(fault.as_bytes());
    out.push(b" peer=");
    gather_name(out, names, peer);
}

// Adds the name of a party, if there is a party of this number.
fn gather_name<G: Gather>(out: &mut G, names: &Names, party: u32)
    ensures { Adds (name_at names.now party) (G.gathered out.old) (G.gathered out.new) }
{
    if party < names.len() {
        out.push(names.name(party).as_bytes());
    }
}
