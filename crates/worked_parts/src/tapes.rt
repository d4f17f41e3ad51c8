//! A tape that is too short, and is then drawn to its end.
use mpc_ring::Ring;
use std::alloc::{AllocError, Global};
use std::process::Abort;
use std::test::Fail;
use tape_words::{SplitFault, Tape};

fn drawn(tape: &mut Tape) -> Option<u64> {
    match tape.draw() {
        Some(drawn) => Some(drawn.spend()),
        None => None,
    }
}

/// That a tape has these words, which are then drawn, and no others.
fn expect_words(
    rt: &impl Abort,
    alloc: Global,
    tape: &mut Tape,
    words: &[u64],
) -> Result<(), AllocError> {
    expect_same!(rt; tape.left(), words.len() as u64);
    expect_same!(rt; tape.copy_words(alloc)?.as_slice(), words);
    for word in words {
        expect_same!(rt; drawn(tape), Some(*word));
    }
    expect_same!(rt; drawn(tape), None);
    Ok(())
}

#[test]
fn a_short_tape_comes_back(rt: HostRuntime) -> Result<(), Fail> {
    let ring = Ring::new(8).ok_or("no ring")?;
    let tape = Tape::from_words(ring, vec![in rt.alloc(); 10, 20, 1]?)?;
    let short = SplitFault::TapeShort {
        wanted: 4,
        found: 3,
    };
    match tape.split_sessions(rt.alloc(), &[4]) {
        Ok(_) => return Err(Fail::from("accepted")),
        Err((fault, mut tape)) => {
            expect_same!(rt; fault, short);
            expect_words(&rt, rt.alloc(), &mut tape, &[10, 20, 1])?;
        }
    }
    Ok(())
}
