//! Assembling a circuit of gates, once it is known how many input wires there are.
ghost use Rattle.std.specs.Prelude.{◌≡◌, ℕ, ◌<◌, ◌^◌, ◌++◌, length, map, slice_index_or, IfOk};
ghost use Rattle.circuit_model.specs.Netlists.{IsCircuit};
ghost use Rattle.number_gates.specs.BitGates.{no_wire};
ghost use Rattle.number_laws.specs.Making.{no_gate};
ghost use Rattle.number_compiler.specs.Circuits.{number_of, copy, gate_of, gates_from, assembled};
ghost use Rattle.number_compiler.specs.Narrow.{IsNarrow};

use circuit_model::{Circuit, Gate, Operation};
use mpc_ring::Ring;
use number_gates::{Bit, DraftGate, Wire};
use std::alloc::{AllocError, Global};

/// A gate without wires, that sets a known bit.
fn known(constant: u64) -> DraftGate
    ensures { result ≡ record { operation = Operation.Eq; first = no_wire; second = no_wire; constant = constant } }
{
    DraftGate {
        operation: Operation::Eq,
        first: Wire::Input(0),
        second: Wire::Input(0),
        constant,
    }
}

/// A copy of a bit.
fn copy(bit: Bit) -> DraftGate
    ensures { result ≡ copy bit }
{
    match bit {
        Bit::Zero => known(0),
        Bit::One => known(1),
        Bit::On(wire) => DraftGate {
            operation: Operation::Eqw,
            first: wire,
            second: Wire::Input(0),
            constant: 0,
        },
    }
}

/// These gates, and then a copy of each of these bits.
pub fn all_gates(
    alloc: Global,
    drafted: &[DraftGate],
    bits: &[Bit],
) -> Result<Vec<DraftGate>, AllocError>
    ensures { IfOk result (λ all. all.items ≡ drafted.now ++ map copy bits.now) }
{
    let mut all = Vec::with_capacity(alloc, drafted.len())?;
    all.extend_from_slice(drafted)?;
    for at in 0..bits.len() {
        all.push(copy(bits[at]))?;
    }
    Ok(all)
}

/// The number of a wire.
fn number(inputs: u64, wire: Wire) -> u32
    requires { number_of inputs wire < 2 ^ 32 }
    ensures { result ≡ number_of inputs wire }
{
    match wire {
        Wire::Input(input) => input as u32,
        Wire::Gate(gate) => (inputs + gate) as u32,
    }
}

/// Gate `at` of a circuit.
fn gate(inputs: u64, at: u64, drafted: DraftGate) -> Gate
    requires { IsNarrow inputs at drafted }
    ensures { result ≡ gate_of inputs at drafted }
{
    Gate {
        operation: drafted.operation,
        first: number(inputs, drafted.first),
        second: number(inputs, drafted.second),
        output: (inputs + at) as u32,
        constant: drafted.constant,
    }
}

/// The gates of a circuit.
fn gates(alloc: Global, inputs: u64, drafted: &[DraftGate]) -> Result<Vec<Gate>, AllocError>
    requires { (t : ℕ) → t < length drafted.now → IsNarrow inputs t (slice_index_or drafted.now t no_gate) }
    ensures { IfOk result (λ gates. gates.items ≡ gates_from inputs 0 drafted.now) }
{
    let mut gates = Vec::with_capacity(alloc, drafted.len())?;
    for at in 0..drafted.len() {
        gates.push(gate(inputs, at as u64, drafted[at]))?;
    }
    Ok(gates)
}

/// A copy of the widths.
fn copied(alloc: Global, widths: &[u64]) -> Result<Vec<u64>, AllocError>
    ensures { IfOk result (λ copy. copy.items ≡ widths.now) }
{
    let mut copy = Vec::with_capacity(alloc, widths.len())?;
    copy.extend_from_slice(widths)?;
    Ok(copy)
}

/// The circuit of bits of these gates over `wires` input wires, with input and output values of these widths.
pub fn assemble(
    alloc: Global,
    wires: u64,
    drafted: &[DraftGate],
    inputs: &[u64],
    outputs: &[u64],
) -> Result<Circuit, AllocError>
    requires { IsCircuit (assembled wires drafted.now inputs.now outputs.now) }
    ensures { IfOk result (λ c. c ≡ assembled wires drafted.now inputs.now outputs.now) }
{
    let all = (wires + drafted.len() as u64) as u32;
    let gates = gates(alloc, wires, drafted)?;
    let inputs = copied(alloc, inputs)?;
    let outputs = copied(alloc, outputs)?;
    match Ring::new(1) {
        Some(ring) => Ok(Circuit::of(ring, gates, all, inputs, outputs)),
        None => Err(AllocError),
    }
}
