//! The nodes of all parties of a job, and the pipes between them.
use crate::asked::{Asked, Flaw};
use crate::node::{Ended, Node, make_node, run_node};
use crate::pipe::{InVain, PipeGate, make_pipe};
use crate::reader_threads::ReaderThreads;
use crate::thread_net::{PipeEnds, ThreadNet};
use std::alloc::{AllocError, Global};
use std::rt::Files;
use std::sync::atomic::{AtomicBool, AtomicU64, Ordering};
use std::sync::{Arc, Wait};
use std::test::Fail;
use std::thread::Threads;

/// A node, and a net that gives its links.
#[derive(Drop)]
pub struct LinkedNode {
    node: Node,
    net: ThreadNet,
}

/// The nodes of all parties, and how often an end of their pipes gave up.
#[derive(Drop)]
pub struct Network {
    pub nodes: Vec<LinkedNode>,
    pub in_vain: InVain,
}

/// What is wrong with this pipe.
fn flaw_between(asked: &Asked<'_>, from: usize, to: usize) -> Flaw {
    if asked.from == from && asked.to == to {
        asked.flaw
    } else {
        Flaw::Nothing
    }
}

/// Makes a pipe from this party to each other one.
fn connect(
    alloc: Global,
    from: usize,
    asked: &Asked<'_>,
    in_vain: &InVain,
    all: &mut [PipeEnds],
) -> Result<(), AllocError> {
    let mut outgoing = Vec::new(alloc);
    for to in 0..all.len() {
        if to != from {
            let flaw = flaw_between(asked, from, to);
            let (sender, receiver) = make_pipe(alloc, asked.room, flaw, in_vain)?;
            outgoing.push(sender)?;
            all[to].incoming.push(receiver)?;
        }
    }
    if let Some(ends) = all.get_mut(from) {
        ends.outgoing = outgoing;
    }
    Ok(())
}

/// The ends of the pipes between the parties, for each party.
fn connect_all(
    alloc: Global,
    asked: &Asked<'_>,
    in_vain: &InVain,
) -> Result<Vec<PipeEnds>, AllocError> {
    let mut all = Vec::new(alloc);
    for me in 0..asked.names.len() {
        all.push(PipeEnds {
            me,
            incoming: Vec::new(alloc),
            outgoing: Vec::new(alloc),
        })?;
    }
    for from in 0..all.len() {
        connect(alloc, from, asked, in_vain, all.as_mut_slice())?;
    }
    Ok(all)
}

/// Has the party wait for its peer `from` until `bytes` bytes have come from the peer after that.
fn hold(alloc: Global, ends: &mut PipeEnds, from: usize, bytes: u64) -> Result<(), Fail> {
    let gate: PipeGate = Arc::new(alloc, AtomicBool::new(false))?;
    let next = ends
        .incoming
        .get_mut(from.saturating_add(1))
        .ok_or("no next peer")?;
    next.open_after(bytes, Arc::try_clone(&gate)?);
    let held = ends.incoming.get_mut(from).ok_or("no such peer")?;
    held.wait_behind(gate);
    Ok(())
}

/// The nodes of all parties, each over the files of its own folder.
pub fn make_network(alloc: Global, asked: &Asked<'_>) -> Result<Network, Fail> {
    let in_vain = Arc::new(alloc, AtomicU64::new(0))?;
    let mut all = connect_all(alloc, asked, &in_vain)?;
    if let Flaw::IsHeld { bytes } = asked.flaw {
        let ends = all.get_mut(asked.to).ok_or("no such party")?;
        hold(alloc, ends, asked.from, bytes)?;
    }
    let mut nodes = Vec::new(alloc);
    for (ends, name) in all.into_iter().zip(asked.names) {
        nodes.push(LinkedNode {
            node: make_node(alloc, asked.folder, name)?,
            net: ThreadNet::new(ends),
        })?;
    }
    Ok(Network { nodes, in_vain })
}

/// Runs a node to its end, at which its links are closed.
pub fn run_linked<R: Files + Threads + Wait + Sync>(
    rt: &R,
    alloc: Global,
    linked: LinkedNode,
) -> Ended {
    let LinkedNode { node, mut net } = linked;
    let mut spawner = ReaderThreads::new(rt, alloc);
    run_node(rt, alloc, node, &mut net, &mut spawner)
}

/// Whether no end of a pipe waited in vain.
pub fn check_waits(in_vain: &InVain) -> Result<(), Fail> {
    if in_vain.load(Ordering::SeqCst) != 0 {
        return Err("an end of a pipe waited in vain".into());
    }
    Ok(())
}
