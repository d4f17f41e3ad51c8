//! Sinks in memory, and blocks before them.
use outer_io::{Blocks, Failed, Gather, Sink, VecSink, write_pieces};
use std::alloc::{AllocError, Global};
use std::process::Abort;
use std::test::Fail;

/// A sink with room for `room` bytes, whose calls of these numbers fail.
fn sink(alloc: Global, room: usize, failing: &[u64]) -> Result<VecSink, AllocError> {
    Ok(VecSink::new(
        Vec::with_capacity(alloc, room)?,
        room,
        Vec::from_slice(alloc, failing)?,
    ))
}

#[test]
fn a_sink_in_memory(rt: HostRuntime) -> Result<(), Fail> {
    let mut sink = sink(rt.alloc(), 5, &[1])?;
    expect_same!(rt; sink.write(b"abc"), Ok(()));
    expect_same!(rt; sink.write(b"d"), Err(Failed));
    expect_same!(rt; write_pieces(&mut sink, &[b"d", b"ef", b"g"]), Err(Failed));
    expect_same!(rt; sink.bytes(), b"abcde".as_slice());
    Ok(())
}

/// So many bytes that are not all the same.
fn counted(alloc: Global, count: u64) -> Result<Vec<u8>, AllocError> {
    let mut bytes = Vec::new(alloc);
    for i in 0..count {
        bytes.push((i % 251) as u8)?;
    }
    Ok(bytes)
}

/// So many bytes before the sink, and behind the others.
fn gather_counted(
    alloc: Global,
    blocks: &mut Blocks<'_, VecSink>,
    all: &mut Vec<u8>,
    count: u64,
) -> Result<(), AllocError> {
    let piece = counted(alloc, count)?;
    blocks.push(&piece);
    all.extend_from_slice(&piece)
}

#[test]
fn pieces_of_all_sizes_are_one_text(rt: HostRuntime) -> Result<(), Fail> {
    let alloc = rt.alloc();
    let mut sink = sink(alloc, 30_000, &[])?;
    let mut blocks = Blocks::new(&mut sink);
    let mut all = Vec::new(alloc);
    for count in [0, 1, 4095, 4096, 4097, 10_000, 3] {
        gather_counted(alloc, &mut blocks, &mut all, count)?;
    }
    expect_same!(rt; blocks.finish(), Ok(()));
    assert!(rt; sink.bytes() == all.as_slice());
    Ok(())
}

/// Gathers `count` pieces of ten bytes before the sink.
fn gather_tens(sink: &mut VecSink, count: u64) -> Result<(), Failed> {
    let mut blocks = Blocks::new(sink);
    for _ in 0..count {
        blocks.push(b"0123456789");
    }
    blocks.finish()
}

/// So many pieces of ten bytes, one after another.
fn tens(alloc: Global, count: u64) -> Result<Vec<u8>, AllocError> {
    let mut bytes = Vec::new(alloc);
    for _ in 0..count {
        bytes.extend_from_slice(b"0123456789")?;
    }
    Ok(bytes)
}

/// Rooms of sinks, their calls that fail, and how many of a thousand pieces of ten bytes come to them. A block is one
/// call, of 409 pieces, and what comes before a fault is kept.
const TENS: [(usize, &[u64], u64); 4] = [
    (10_000, &[2], 818),
    (10_000, &[3], 1_000),
    (10_000, &[0], 0),
    (5_000, &[], 500),
];

#[test]
fn a_fault_leaves_whole_blocks(rt: HostRuntime) -> Result<(), Fail> {
    let alloc = rt.alloc();
    for (room, failing, count) in &TENS {
        let mut sink = sink(alloc, *room, failing)?;
        expect_same!(rt; gather_tens(&mut sink, 1_000).is_ok(), *count == 1_000);
        assert!(rt; sink.bytes() == tens(alloc, *count)?.as_slice());
    }
    Ok(())
}
