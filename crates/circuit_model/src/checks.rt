//! The checks of a header and of a gate.
ghost use Rattle.std.specs.Prelude.{◌≡◌, ◌^◌, ◌≤◌, ◌<◌, Result, Ok, Err, length, sum, slice_index, slice_index_or, nat_lt, not, ◌&&◌, ◌||◌, ◌==◌, true, false, if◌then◌else◌};
ghost use Rattle.std.specs.List.{list_all};
ghost use Rattle.list_laws.specs.Checks.{or_fault, first_fault};
ghost use Rattle.circuit_model.specs.Netlists.{arity, is_constant, inputs_read};
ghost use Rattle.circuit_model.specs.DraftSteps.{header_checks, gate_checks, gate_of};

use crate::fault::CircuitFault;
use crate::gate::{Gate, Operation};
use job_limits::{MOST_GATES, MOST_VALUES, MOST_WIRES};
use mpc_ring::Ring;

/// The fault, where a check failed.
pub fn check(failed: bool, fault: CircuitFault) -> Result<(), CircuitFault>
    ensures { result ≡ (if failed then Err fault else Ok tt) }
{
    if failed { Err(fault) } else { Ok(()) }
}

/// Whether the values with these widths have more wires than there are.
pub fn exceeds(widths: &[u64], wires: u64) -> bool
    ensures { result ≡ nat_lt wires (sum widths.now) }
{
    let mut left = wires;
    for width in widths {
        if *width > left {
            return true;
        }
        left -= *width;
    }
    false
}

/// Whether these are more gates or wires than a circuit may have.
pub fn are_large(gates: u64, wires: u64) -> bool
    ensures { result ≡ (nat_lt MOST_GATES gates || nat_lt MOST_WIRES wires) }
{
    gates > MOST_GATES || wires > MOST_WIRES
}

fn is_long(widths: &[u64]) -> bool
    ensures { result ≡ nat_lt MOST_VALUES (length widths.now) }
{
    widths.len() as u64 > MOST_VALUES
}

/// The first fault of the counts in a header, whose three lines have these numbers.
#[tactic(auto, unfolding(crate::specs::DraftSteps::header_checks))]
pub(crate) fn check_header(
    gates: u64,
    wires: u64,
    inputs: &[u64],
    outputs: &[u64],
    lines: [u64; 3],
) -> Result<(), CircuitFault>
    ensures { result ≡ or_fault (first_fault (header_checks gates wires inputs.now outputs.now lines)) tt }
{
    let [counts, input_line, output_line] = lines;
    check(
        are_large(gates, wires),
        CircuitFault::TooLarge { line: counts },
    )?;
    check(is_long(inputs), CircuitFault::TooLarge { line: input_line })?;
    check(
        exceeds(inputs, wires),
        CircuitFault::HeaderWidths { line: input_line },
    )?;
    check(
        is_long(outputs),
        CircuitFault::TooLarge { line: output_line },
    )?;
    check(
        exceeds(outputs, wires),
        CircuitFault::HeaderWidths { line: output_line },
    )
}

fn has_arity(operation: Operation, inputs: &[u64], outputs: &[u64]) -> bool
    ensures { result ≡ ((length inputs.now == arity operation) && (length outputs.now == 1)) }
{
    inputs.len() == operation.arity() && outputs.len() == 1
}

fn is_bad_constant(ring: Ring, operation: Operation, inputs: &[u64]) -> bool
    ensures { result ≡ (is_constant operation && not (nat_lt (slice_index inputs.now 0) (2 ^ ring))) }
{
    operation.is_constant() && !ring.fits(word(inputs, 0))
}

// The word at a place, 0 past the end.
fn word(words: &[u64], at: usize) -> u64
    ensures { result ≡ slice_index words.now at }
{
    words.get(at).copied().unwrap_or(0)
}

// The wires that a gate reads.
fn inputs_read(operation: Operation, inputs: &[u64]) -> &[u64]
    ensures { result.now ≡ inputs_read operation inputs.now }
{
    if operation.is_constant() { &[] } else { inputs }
}

fn all_below(wires: u64, read: &[u64]) -> bool
    ensures { result ≡ list_all (λ w. nat_lt w wires) read.now }
{
    read.iter().all(|wire| *wire < wires)
}

fn are_below(wires: u64, read: &[u64], output: u64) -> bool
    ensures { result ≡ (list_all (λ w. nat_lt w wires) read.now && nat_lt output wires) }
{
    all_below(wires, read) && output < wires
}

fn are_set(set: &[bool], read: &[u64]) -> bool
    requires { list_all (λ w. nat_lt w (length set.now)) read.now ≡ true }
    ensures { result ≡ list_all (λ w. slice_index_or set.now w false) read.now }
{
    for wire in read {
        if !set[*wire as usize] {
            return false;
        }
    }
    true
}

/// The gate, or the first of its faults.
#[tactic(auto, unfolding(crate::specs::DraftSteps::gate_checks))]
pub(crate) fn check_gate(
    ring: Ring,
    set: &[bool],
    line: u64,
    operation: Operation,
    inputs: &[u64],
    outputs: &[u64],
) -> Result<Gate, CircuitFault>
    requires { length set.now ≤ MOST_WIRES }
    ensures { result ≡ or_fault (first_fault (gate_checks ring (length set.now)
        (λ w. slice_index_or set.now w false) line operation inputs.now outputs.now))
        (gate_of operation inputs.now outputs.now) }
{
    check(
        !has_arity(operation, inputs, outputs),
        CircuitFault::WrongArity { line },
    )?;
    check(
        is_bad_constant(ring, operation, inputs),
        CircuitFault::BadConstant { line },
    )?;
    let read = inputs_read(operation, inputs);
    let output = word(outputs, 0);
    check(
        !are_below(set.len() as u64, read, output),
        CircuitFault::WireOutOfRange { line },
    )?;
    check(!are_set(set, read), CircuitFault::ReadBeforeSet { line })?;
    check(set[output as usize], CircuitFault::SetTwice { line })?;
    Ok(Gate {
        operation,
        first: word(read, 0) as u32,
        second: word(read, 1) as u32,
        output: output as u32,
        constant: constant(operation, inputs),
    })
}

fn constant(operation: Operation, inputs: &[u64]) -> u64
    ensures { result ≡ (if is_constant operation then slice_index inputs.now 0 else 0) }
{
    if operation.is_constant() {
        word(inputs, 0)
    } else {
        0
    }
}
