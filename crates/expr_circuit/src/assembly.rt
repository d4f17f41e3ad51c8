//! Assembling a circuit of gates, once it is known how many inputs there are.
ghost use Rattle.std.specs.Prelude.{◌≡◌, ℕ, ◌<◌, ◌^◌, ◌++◌, length, map, slice_index_or, OnOk, IfOk};
ghost use Rattle.circuit_model.specs.Netlists.{IsCircuit};
ghost use Rattle.expr_circuit.specs.Circuits.{number_of, copy, no_wire, gate_of, gates_from, assembled};
ghost use Rattle.expr_circuit.specs.Kept.{IsNarrow};

use crate::wire::{DraftGate, Wire};
use circuit_model::{Circuit, Gate, Operation};
use mpc_ring::Ring;
use std::alloc::{AllocError, Global};

/// Adds a copy of each of these wires.
pub(crate) fn push_copies(drafted: &mut Vec<DraftGate>, wires: &[Wire]) -> Result<(), AllocError>
    ensures { OnOk result (drafted.new.items ≡ drafted.old.items ++ map copy wires.now) }
{
    for at in 0..wires.len() {
        drafted.push(DraftGate {
            operation: Operation::Eqw,
            first: wires[at],
            second: Wire::Input(0),
            constant: 0,
        })?;
    }
    Ok(())
}

/// The number of a wire.
fn number(inputs: u64, wire: Wire) -> u32
    requires { number_of inputs wire < 2 ^ 32 }
    ensures { result ≡ number_of inputs wire }
{
    match wire {
        Wire::Input(input) => input as u32,
        Wire::Gate(gate) => (inputs + gate) as u32,
    }
}

/// Gate `at` of a circuit.
fn gate(inputs: u64, at: u64, drafted: DraftGate) -> Gate
    requires { IsNarrow inputs at drafted }
    ensures { result ≡ gate_of inputs at drafted }
{
    Gate {
        operation: drafted.operation,
        first: number(inputs, drafted.first),
        second: number(inputs, drafted.second),
        output: (inputs + at) as u32,
        constant: drafted.constant,
    }
}

/// The gates of a circuit.
fn gates(alloc: Global, inputs: u64, drafted: &[DraftGate]) -> Result<Vec<Gate>, AllocError>
    requires { (t : ℕ) → t < length drafted.now → IsNarrow inputs t (slice_index_or drafted.now t (copy no_wire)) }
    ensures { IfOk result (λ gates. gates.items ≡ gates_from inputs 0 drafted.now) }
{
    let mut gates = Vec::with_capacity(alloc, drafted.len())?;
    for at in 0..drafted.len() {
        gates.push(gate(inputs, at as u64, drafted[at]))?;
    }
    Ok(gates)
}

/// The circuit of gates over `inputs` input values and `outputs` output values, each of width 1.
pub(crate) fn assemble(
    alloc: Global,
    ring: Ring,
    inputs: u64,
    drafted: &[DraftGate],
    outputs: usize,
) -> Result<Circuit, AllocError>
    requires { IsCircuit (assembled ring inputs drafted.now outputs) }
    ensures { IfOk result (λ c. c ≡ assembled ring inputs drafted.now outputs) }
{
    let wires = (inputs + drafted.len() as u64) as u32;
    let gates = gates(alloc, inputs, drafted)?;
    let input_widths = vec![in alloc; 1; inputs as usize]?;
    let output_widths = vec![in alloc; 1; outputs]?;
    Ok(Circuit::of(ring, gates, wires, input_widths, output_widths))
}
