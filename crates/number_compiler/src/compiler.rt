//! Reading a program.
ghost use Rattle.std.specs.Prelude.{◌≡◌, ◌≤◌, length, nat_eq, nat_lt, not, false, Ok, Err, MatchResult, if◌then◌else◌};
ghost use Rattle.std.specs.List.{prefix_len};
ghost use Rattle.std.specs.Str.Lossy.{utf8_valid_len};
ghost use Rattle.number_circuit.specs.declared.fault.NumberFault.TheVariants.{NotUtf8};
ghost use Rattle.number_circuit.specs.Faults.{told};
ghost use Rattle.number_compiler.specs.Laws.{IsCircuitOf, Refuses};

use crate::draft::Draft;
use crate::elements::NumberLine;
use crate::pending::Pending;
use circuit_model::Circuit;
use line_grammar::{LineParser, cut_line};
use number_circuit::NumberFault;
use std::alloc::Global;

/// Whether the byte begins no comment.
fn is_told(byte: u8) -> bool
    ensures { result ≡ not (nat_eq byte 35) }
{
    byte != b'#'
}

/// How many bytes stand before the comment of a line.
fn told_length(line: &[u8]) -> usize
    ensures is { result ≡ prefix_len (λ byte. not (nat_eq byte 35)) line.now }
    ensures within { result ≤ length line.now }
{
    line.iter().take_while(|byte| is_told(**byte)).count()
}

/// A line up to its comment.
fn told(line: &[u8]) -> &[u8]
    ensures { result.now ≡ told line.now }
{
    &line[..told_length(line)]
}

fn check_text(bytes: &[u8]) -> Result<(), NumberFault>
    ensures { result ≡ (if nat_lt (utf8_valid_len bytes.now) (length bytes.now)
        then Err (NotUtf8 (utf8_valid_len bytes.now)) else Ok tt) }
{
    match str::from_utf8(bytes) {
        Ok(_) => Ok(()),
        Err(error) => Err(NumberFault::NotUtf8 {
            at: error.valid_up_to() as u64,
        }),
    }
}

/// Goes over the lines of a text, and makes the circuit.
fn read_lines(alloc: Global, bytes: &[u8]) -> Result<Circuit, NumberFault>
    requires { nat_lt (utf8_valid_len bytes.now) (length bytes.now) ≡ false }
    ensures { MatchResult result (IsCircuitOf bytes.now) (Refuses bytes.now) }
{
    let mut draft = Draft::new(alloc);
    let mut parser = LineParser::new(alloc);
    let mut pending = Pending::new(alloc);
    let mut rest = bytes;
    let mut number = 1;
    while !rest.is_empty() {
        let (line, after) = cut_line(rest);
        let text = told(line);
        let line = NumberLine { text, number };
        match draft.line(alloc, &line, &mut parser, &mut pending) {
            Ok(()) => {}
            Err(fault) => return Err(fault),
        }
        rest = after;
        number += 1;
    }
    draft.circuit(alloc)
}

/// The circuit that a program stands for, or the program's first fault. It takes time linear in the length of the text
/// and in the number of gates.
pub fn read(alloc: Global, text: &[u8]) -> Result<Circuit, NumberFault>
    ensures { MatchResult result (IsCircuitOf text.now) (Refuses text.now) }
{
    match check_text(text) {
        Ok(()) => read_lines(alloc, text),
        Err(fault) => Err(fault),
    }
}
