//! The node c over links of which one call fails, or whose readers are not started.

use crate::calls::{Call, expect_answer};
use crate::files::PRODUCT;
use crate::links::{ALL, Link, NEVER, WHOLE};
use outer_io::NoPace;
use std::alloc::Global;
use std::process::Abort;
use std::sync::Wait;
use std::test::Fail;
use std::thread::Threads;

/// The lengths of pieces in which bytes come: single bytes, others, frames, and all at once.
const PIECES: [usize; 4] = [1, 7, 18, ALL];

/// The lines on links of a and b that fail.
const LINKS: [&str; 2] = ["fault link peer=a\n", "fault link peer=b\n"];

/// The words of the nodes of c and of a.
const OF_C: &[&str] = &["mpc", "node", "d", "c"];

const OF_A: &[&str] = &["mpc", "node", "d", "a"];

/// That the node of these words, over the links of c, stops with this line, and its peers take so many bytes.
fn expect_stop<R: Abort + Threads + Wait + Sync>(
    rt: &R,
    alloc: Global,
    words: &'static [&'static str],
    links: [Link; 2],
    refused_start: u64,
    line: &'static str,
    taken: [usize; 2],
) -> Result<(), Fail> {
    let call = Call {
        words,
        files: PRODUCT,
        links,
        refused_start,
        status: 5,
        out: "",
        err: line,
        taken,
    };
    expect_answer(rt, alloc, &call, &NoPace)
}

/// That c over this link of a peer and a whole one of the other tells that it fails, and they take so many bytes.
fn expect_failed<R: Abort + Threads + Wait + Sync>(
    rt: &R,
    alloc: Global,
    peer: usize,
    link: Link,
    taken: [usize; 2],
) -> Result<(), Fail> {
    if peer == 0 {
        expect_stop(rt, alloc, OF_C, [link, WHOLE], NEVER, LINKS[0], taken)
    } else {
        expect_stop(rt, alloc, OF_C, [WHOLE, link], NEVER, LINKS[1], taken)
    }
}

/// Pieces of a length, how many reads of them bring the hello and the inputs of a peer, and how many bring all of a,
/// and of b.
struct Reads {
    piece: usize,
    inputs: u64,
    all: [u64; 2],
}

/// For each length of pieces.
const READS: [Reads; 4] = [
    Reads {
        piece: 1,
        inputs: 74,
        all: [128, 110],
    },
    Reads {
        piece: 7,
        inputs: 12,
        all: [21, 18],
    },
    Reads {
        piece: 18,
        inputs: 5,
        all: [8, 7],
    },
    Reads {
        piece: ALL,
        inputs: 3,
        all: [6, 5],
    },
];

/// That c tells of each read of a peer that fails. It has said its hellos, and its frames once the inputs are there.
fn expect_failed_reads<R: Abort + Threads + Wait + Sync>(
    rt: &R,
    alloc: Global,
    peer: usize,
    reads: &Reads,
    all: u64,
) -> Result<(), Fail> {
    for read in 0..all {
        let mut link = WHOLE;
        link.piece = reads.piece;
        link.failing_read = read;
        let taken = if read < reads.inputs { 38 } else { 74 };
        expect_failed(rt, alloc, peer, link, [taken, taken])?;
    }
    Ok(())
}

#[test]
fn each_read_that_fails_is_told(rt: HostRuntime) -> Result<(), Fail> {
    for reads in &READS {
        expect_failed_reads(&rt, rt.alloc(), 0, reads, reads.all[0])?;
        expect_failed_reads(&rt, rt.alloc(), 1, reads, reads.all[1])?;
    }
    Ok(())
}

/// A peer, which of the sends and flushes to it fails, how many bytes it has room for, and how many a and b take. A
/// hello, a flush, two frames and a flush go to each; those to a and to b by turns, the first frame to b before that to
/// a.
type Send = (usize, u64, usize, [usize; 2]);

/// Each of these calls fails before its first byte, and each send after five.
const SENDS: [Send; 16] = [
    (0, 0, ALL, [0, 0]),
    (0, NEVER, 5, [5, 0]),
    (0, 1, ALL, [38, 38]),
    (0, 2, ALL, [38, 56]),
    (0, NEVER, 43, [43, 56]),
    (0, 3, ALL, [56, 56]),
    (0, NEVER, 61, [61, 56]),
    (0, 4, ALL, [74, 74]),
    (1, 0, ALL, [38, 0]),
    (1, NEVER, 5, [38, 5]),
    (1, 1, ALL, [38, 38]),
    (1, 2, ALL, [38, 38]),
    (1, NEVER, 43, [38, 43]),
    (1, 3, ALL, [74, 56]),
    (1, NEVER, 61, [74, 61]),
    (1, 4, ALL, [74, 74]),
];

#[test]
fn each_send_and_flush_that_fails_is_told(rt: HostRuntime) -> Result<(), Fail> {
    for piece in PIECES {
        for (peer, failing_send, room, taken) in SENDS {
            let mut link = WHOLE;
            link.piece = piece;
            link.failing_send = failing_send;
            link.room = room;
            expect_failed(&rt, rt.alloc(), peer, link, taken)?;
        }
    }
    Ok(())
}

/// The words of a node, how many bytes a says, which send to b fails, and which start of a reader is refused; then what
/// is told, and how many bytes a and b take.
type Faults = (
    &'static [&'static str],
    usize,
    u64,
    u64,
    &'static str,
    [usize; 2],
);

/// A failed send is told before a refused start, and that before a fault of an earlier peer. The net has no links for
/// a.
const FAULTS: [Faults; 6] = [
    (OF_C, ALL, NEVER, 0, "fault thread peer=a\n", [38, 38]),
    (OF_C, ALL, NEVER, 1, "fault thread peer=b\n", [38, 38]),
    (OF_C, 5, NEVER, 1, "fault thread peer=b\n", [38, 38]),
    (OF_C, ALL, 0, 0, "fault link peer=b\n", [38, 0]),
    (OF_C, 100, 2, NEVER, "fault link peer=b\n", [38, 38]),
    (OF_A, ALL, NEVER, NEVER, "fault net\n", [0, 0]),
];

#[test]
fn one_of_several_faults_is_told(rt: HostRuntime) -> Result<(), Fail> {
    for (words, says, failing_send, refused_start, line, taken) in FAULTS {
        let mut links = [WHOLE, WHOLE];
        links[0].says = says;
        links[1].failing_send = failing_send;
        expect_stop(&rt, rt.alloc(), words, links, refused_start, line, taken)?;
    }
    Ok(())
}
