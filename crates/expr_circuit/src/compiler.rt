//! Reading a program, and writing its circuit.
ghost use Rattle.std.specs.Prelude.{◌≡◌, nat_lt, false, Ok, Err, length, MatchResult, if◌then◌else◌};
ghost use Rattle.std.specs.Str.Lossy.{utf8_valid_len};
ghost use Rattle.expr_circuit.specs.declared.fault.ExprFault.TheVariants.{NotUtf8};
ghost use Rattle.expr_circuit.specs.Walks.{compiled_in};
ghost use Rattle.expr_circuit.specs.Kept.{Gives};
ghost use Rattle.expr_circuit.specs.Laws.{IsCircuitOf, IsCompiled, Refuses};

use crate::draft::Draft;
use crate::fault::ExprFault;
use crate::program_line::ProgramLine;
use crate::wire::Pending;
use circuit_file::write;
use circuit_model::Circuit;
use line_grammar::{LineParser, cut_line};
use mpc_ring::Ring;
use std::alloc::Global;

fn check_text(bytes: &[u8]) -> Result<(), ExprFault>
    ensures { result ≡ (if nat_lt (utf8_valid_len bytes.now) (length bytes.now)
        then Err (NotUtf8 (utf8_valid_len bytes.now)) else Ok tt) }
{
    match str::from_utf8(bytes) {
        Ok(_) => Ok(()),
        Err(error) => Err(ExprFault::NotUtf8 {
            at: error.valid_up_to() as u64,
        }),
    }
}

/// Goes over the lines of a text, and makes the circuit.
fn read_lines(alloc: Global, bytes: &[u8], ring: Ring) -> Result<Circuit, ExprFault>
    requires { nat_lt (utf8_valid_len bytes.now) (length bytes.now) ≡ false }
    ensures { Gives result (compiled_in ring bytes.now) }
{
    let mut draft = Draft::new(alloc);
    let mut parser = LineParser::new(alloc);
    let mut wires = Pending::new(alloc);
    let mut rest = bytes;
    let mut number = 1;
    while !rest.is_empty() {
        let (text, after) = cut_line(rest);
        let line = ProgramLine { text, number, ring };
        match draft.line(&line, &mut parser, &mut wires) {
            Ok(()) => {}
            Err(fault) => return Err(fault),
        }
        rest = after;
        number += 1;
    }
    ring.recall();
    draft.circuit(alloc, ring)
}

/// The circuit that a program stands for over a ring, or the program's first fault. It takes time linear in the length
/// of the text.
pub fn read(alloc: Global, bytes: &[u8], ring: Ring) -> Result<Circuit, ExprFault>
    ensures gives { Gives result (compiled_in ring bytes.now) }
    ensures stands { MatchResult result (IsCircuitOf ring bytes.now) (Refuses ring bytes.now) }
{
    match check_text(bytes) {
        Ok(()) => read_lines(alloc, bytes, ring),
        Err(fault) => Err(fault),
    }
}

/// The text of that circuit, or the program's first fault.
pub fn compile(alloc: Global, bytes: &[u8], ring: Ring) -> Result<Vec<u8>, ExprFault>
    ensures { MatchResult result (λ text. IsCompiled ring bytes.now text.items) (Refuses ring bytes.now) }
{
    let circuit = read(alloc, bytes, ring)?;
    Ok(write(alloc, &circuit)?)
}
