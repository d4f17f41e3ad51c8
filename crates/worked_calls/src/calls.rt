//! A call of the program, and its whole answer.

use crate::files::{Texts, files_of};
use crate::links::{Link, net_of};
use crate::talks::{SAID_BY_C, first_bytes};
use mpc_top::command;
use outer_io::{InlineSpawner, Pace, PipeNet, VecSink};
use std::alloc::{AllocError, Global};
use std::process::Abort;
use std::sync::Wait;
use std::test::Fail;
use std::thread::Threads;

/// The words of a call, its files, the links of c's peers, and which reader is not started; then its status, what it
/// writes, and how many bytes of what c says the peers take.
#[derive(Drop)]
pub struct Call {
    pub words: &'static [&'static str],
    pub files: Texts,
    pub links: [Link; 2],
    pub refused_start: u64,
    pub status: u8,
    pub out: &'static str,
    pub err: &'static str,
    pub taken: [usize; 2],
}

/// What a call leaves.
#[derive(Drop)]
struct Answer {
    status: u8,
    out: VecSink,
    err: VecSink,
    net: PipeNet,
}

/// The words of a call.
fn words_of(alloc: Global, texts: &[&str]) -> Result<Vec<String>, AllocError> {
    let mut words = Vec::new(alloc);
    for text in texts {
        words.push(String::from_str(alloc, text)?)?;
    }
    Ok(words)
}

/// A sink that takes what is written.
fn sink(alloc: Global) -> Result<VecSink, AllocError> {
    Ok(VecSink::new(Vec::with_capacity(alloc, 300)?, 300, Vec::new(alloc)))
}

/// The answer of the call at this pace.
fn answer_of<P: Pace, R: Threads + Wait + Sync>(
    rt: &R,
    alloc: Global,
    call: &Call,
    pace: &P,
) -> Result<Answer, AllocError> {
    let words = words_of(alloc, call.words)?;
    let mut files = files_of(alloc, &call.files)?;
    let mut out = sink(alloc)?;
    let mut err = sink(alloc)?;
    let mut net = net_of(alloc, &call.links)?;
    let mut spawner = InlineSpawner::new(Vec::from_slice(alloc, &[call.refused_start])?);
    let status = command(
        rt,
        alloc,
        &words,
        &mut files,
        &mut out,
        &mut err,
        &mut net,
        &mut spawner,
        pace,
    );
    Ok(Answer {
        status,
        out,
        err,
        net,
    })
}

/// That each peer of c took so many bytes of its talk: none, where the links were not handed back.
fn expect_taken(rt: &impl Abort, net: &PipeNet, taken: &[usize; 2]) {
    let Some(links) = net.kept() else {
        assert!(rt; *taken == [0, 0], "the links were not handed back");
        return;
    };
    for ((outlet, talk), count) in links.outlets.iter().zip(&SAID_BY_C).zip(taken) {
        let bytes = first_bytes(talk, *count);
        assert!(rt; outlet.bytes() == bytes, "a peer took not {count} bytes");
    }
}

/// That this text was written.
fn expect_text(rt: &impl Abort, sink: &VecSink, text: &str) {
    assert!(rt; sink.bytes() == text.as_bytes(), "another text than {text}");
}

/// That the call at this pace has its answer.
pub fn expect_answer<P: Pace, R: Abort + Threads + Wait + Sync>(
    rt: &R,
    alloc: Global,
    call: &Call,
    pace: &P,
) -> Result<(), Fail> {
    let answer = answer_of(rt, alloc, call, pace)?;
    expect_text(rt, &answer.err, call.err);
    expect_text(rt, &answer.out, call.out);
    assert!(rt; answer.status == call.status, "another status");
    expect_taken(rt, &answer.net, &call.taken);
    Ok(())
}
