//! A party's node.
use link_reader::LinkReader;
use mpc_top::command;
use outer_io::{Net, NoPace, Spawner, StdFiles, VecSink};
use std::alloc::{AllocError, Global};
use std::rt::Files;
use std::sync::Wait;
use std::thread::Threads;

/// One party of a job: its name, the words that start its node, and its outputs.
#[derive(Drop)]
pub struct Node {
    name: String,
    words: Vec<String>,
    out: VecSink,
    err: VecSink,
}

/// How a node ended: its status, and what it wrote.
#[derive(Drop)]
pub struct Ended {
    pub name: String,
    pub status: u8,
    pub out: VecSink,
    pub err: VecSink,
}

/// A sink with room for what a node writes.
fn sink(alloc: Global) -> Result<VecSink, AllocError> {
    let room = 4000;
    Ok(VecSink::new(Vec::with_capacity(alloc, room)?, room, Vec::new(alloc)))
}

/// The words that start the node of the party of this name, over the files of its own folder.
fn words(alloc: Global, folder: &str, name: &str) -> Result<Vec<String>, AllocError> {
    let mut words = Vec::new(alloc);
    for word in ["mpc", "node"] {
        words.push(String::from_str(alloc, word)?)?;
    }
    words.push(format!(in alloc; "{folder}/{name}")?)?;
    words.push(String::from_str(alloc, name)?)?;
    Ok(words)
}

/// The node of the party of this name.
pub fn make_node(alloc: Global, folder: &str, name: &str) -> Result<Node, AllocError> {
    Ok(Node {
        name: String::from_str(alloc, name)?,
        words: words(alloc, folder, name)?,
        out: sink(alloc)?,
        err: sink(alloc)?,
    })
}

/// Runs the node over this net to its end.
pub fn run_node<N: Net, W: Spawner<LinkReader<N::In>>, R: Files + Threads + Wait + Sync>(
    rt: &R,
    alloc: Global,
    node: Node,
    net: &mut N,
    spawner: &mut W,
) -> Ended
where
    N::In: Drop,
{
    let Node {
        name,
        words,
        mut out,
        mut err,
    } = node;
    let mut files = StdFiles::new(rt, alloc);
    let status = command(
        rt, alloc, &words, &mut files, &mut out, &mut err, net, spawner, &NoPace,
    );
    Ended {
        name,
        status,
        out,
        err,
    }
}
