//! A program for tests: it runs the nodes of all parties of a job beside one another, each node and each of its readers
//! in a thread, over pipes in memory, and prints for each node its name, its status and what it wrote on both outputs.
#![tactic(auto)]

mod asked;
mod network;
mod node;
mod pipe;
mod reader_threads;
mod thread_inlet;
mod thread_net;
mod thread_outlet;

use crate::asked::asked_by;
use crate::network::{Network, check_waits, make_network, run_linked};
use crate::node::Ended;
use outer_io::VecSink;
use std::test::Fail;
use std::{env, thread};

/// What a sink took, as a text.
fn text_of(sink: &VecSink) -> &str {
    str::from_utf8(sink.bytes()).unwrap_or("no text")
}

/// Prints how a node ended.
fn print_ended(rt: &impl Print, node: &Ended) -> Result<(), Fail> {
    let (name, status) = (node.name.as_str(), node.status);
    let (out, err) = (text_of(&node.out), text_of(&node.err));
    println!(rt; "{name} {status} {out:?} {err:?}")?;
    Ok(())
}

fn main(rt: HostRuntime) -> Result<(), Fail> {
    let alloc = rt.alloc();
    let words: Vec<String> = env::args(&rt)?.collect(alloc)?;
    let asked = asked_by(&words)?;
    let Network { nodes, in_vain } = make_network(alloc, &asked)?;
    let ended = thread::map_vec(&rt, nodes, &|linked| run_linked(&rt, alloc, linked))?;
    check_waits(&in_vain)?;
    for node in &ended {
        print_ended(&rt, node)?;
    }
    Ok(())
}
