//! One party of a job, run by itself over links to the others.
ghost use Rattle.std.specs.Prelude.{◌≡◌, ◌-◌, ◌<◌, IfOk, Some, length};
ghost use Rattle.outer_io.specs.Links.{HasPeers, links_reading};
ghost use Rattle.outer_io.specs.Sink.{SinkReading};
ghost use Rattle.command_words.specs.Commands.{node};
ghost use Rattle.node_run.specs.Ready.{IsNodePart};
ghost use Rattle.mpc_top.specs.LinkTalks.{HasCountsOf, TalkedOver, Written};
ghost use Rattle.mpc_top.specs.Outside.{outside_of};
ghost use Rattle.mpc_top.specs.Outcomes.{RunsWords};

use crate::means::Means;
use job_plan::Plan;
use job_walk::{NodeJob, Stop, read_node};
use link_reader::LinkReader;
use node_run::{NodeDone, NodeReady, every_node_part_is_of_a_world};
use node_talk::NodeFault;
use node_text::write_node;
use outer_io::{Files, Links, Net, NetRefusal, Sink, Spawner};
use party_file::PartyData;
use party_names::Names;
use std::sync::Wait;

/// What is asked of a node: to run the party of this name in the job of this folder.
#[derive(Clone, Copy)]
pub(crate) struct NodeCall<'a> {
    pub(crate) dir: &'a str,
    pub(crate) name: &'a str,
}

// Runs a party over its links, which the net has back.
fn talk<N: Net, W: Spawner<LinkReader<N::In>>, R: Wait>(
    rt: &R,
    net: &mut N,
    spawner: &mut W,
    plan: &Plan,
    ready: NodeReady,
    links: Links<N::In, N::Out>,
) -> Result<NodeDone, NodeFault>
where
    N::In: Drop,
    requires part { IsNodePart ready }
    requires plan { plan.now ≡ ready.plan }
    requires peers { HasPeers (ready.plan.parties - 1) (links_reading N.In.reading N.Out.reading links) }
    ensures over { TalkedOver ready (links_reading N.In.reading N.Out.reading links)
        (N.reading net.old) (N.reading net.new) (W.reading spawner.old) (W.reading spawner.new) result }
    ensures counts { IfOk result (HasCountsOf plan.now) }
{
    every_node_part_is_of_a_world();
    let (result, links) = ready.run(rt, plan, links, spawner);
    net.back(links);
    result
}

// Writes what a party reads at the end of its talk, unless that ended with a fault.
fn write_outcome<O: Sink>(
    out: &mut O,
    names: Names,
    numeric: &[bool],
    plan: &Plan,
    me: u32,
    view: bool,
    outcome: Result<NodeDone, NodeFault>,
) -> Result<(), Stop>
    requires names { length names ≡ plan.now.parties }
    requires party { me < length names }
    requires counts { IfOk outcome (HasCountsOf plan.now) }
    ensures { Written names numeric.now plan.now me view outcome (O.reading out.old) (O.reading out.new) result }
{
    match outcome {
        Ok(done) => Ok(write_node(out, &names, numeric, plan, me, view, &done)?),
        Err(fault) => Err(Stop::Peer { names, fault }),
    }
}

/// Runs the party that is asked for, over links that the net gives and has back, and writes the outputs that it reads
/// and, if the nodes of its job write theirs, its own view. All memory is taken before the first byte goes to a peer.
pub(crate) fn run_node<F: Files, O: Sink, N: Net, W: Spawner<LinkReader<N::In>>, P, R: Wait>(
    means: &Means<'_, P, R>,
    files: &mut F,
    out: &mut O,
    net: &mut N,
    spawner: &mut W,
    asked: &NodeCall<'_>,
) -> Result<(), Stop>
where
    N::In: Drop,
    ensures { (err err' : SinkReading) → RunsWords (Some (node asked.now.dir.now asked.now.name.now))
        (outside_of (F.reading files.old) (O.reading out.old) err (N.reading net.old) (W.reading spawner.old))
        (outside_of (F.reading files.new) (O.reading out.new) err' (N.reading net.new) (W.reading spawner.new)) result }
{
    let alloc = means.alloc;
    let job = read_node(alloc, files, asked.dir, asked.name)?;
    let NodeJob {
        names,
        hosts,
        port,
        form,
        view,
        me,
        plan,
        numeric,
        given,
        digest,
    } = job;
    let PartyData { inputs, tapes } = given;
    let ready = match NodeReady::make(alloc, &plan, me, &inputs, tapes, &digest, form) {
        Ok(ready) => ready,
        Err(_) => {
            drop((inputs, plan, numeric, hosts, names));
            return Err(Stop::Memory);
        }
    };
    let links = match net.links(alloc, &hosts, port, me, plan.parties()) {
        Ok(links) => links,
        Err(NetRefusal::Failed) => {
            drop((ready, inputs, plan, numeric, hosts, names));
            return Err(Stop::Net);
        }
        Err(NetRefusal::Memory) => {
            drop((ready, inputs, plan, numeric, hosts, names));
            return Err(Stop::Memory);
        }
    };
    let outcome = talk(means.threads, net, spawner, &plan, ready, links);
    let result = write_outcome(out, names, &numeric, &plan, me, view, outcome);
    drop((inputs, plan, numeric, hosts));
    result
}
