//! The text of a circuit that a program of expressions is compiled to.
use expr_circuit::{ExprFault, compile};
use mpc_ring::Ring;
use std::test::Fail;

/// A program, and the lines of its circuit: one gate for each operation and constant.
const PROGRAM: &str = "input x\ninput y\nlet s = x + y\noutput s * s - 3\n";

const CIRCUIT: &str =
    "5 7\n2 1 1\n1 1\n2 1 0 1 2 ADD\n2 1 2 2 3 MUL\n1 1 3 4 EQ\n2 1 3 4 5 SUB\n1 1 5 6 EQW\n";

#[test]
fn programs_are_compiled(rt: HostRuntime) -> Result<(), Fail> {
    let ring = Ring::new(8).ok_or("no ring")?;
    let text = compile(rt.alloc(), PROGRAM.as_bytes(), ring);
    let text = text.ok().ok_or("refused")?;
    assert!(rt; text.as_slice() == CIRCUIT.as_bytes(), "another circuit");
    let refused = compile(rt.alloc(), b"input x\noutput x +\n", ring);
    let wanted = ExprFault::Syntax { line: 2, at: 10 };
    assert!(rt; refused.err() == Some(wanted), "another fault");
    Ok(())
}
