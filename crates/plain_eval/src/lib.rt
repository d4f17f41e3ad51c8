//! The values of a circuit's wires, computed in the clear.
#![tactic(auto)]

ghost use Rattle.std.specs.Prelude.{◌≡◌, ◌≤◌, ℕ, ◌^◌, ◌<◌, All, IfOk, length, slice_index, vec_len, replicate, ◌++◌, ◌-◌};
ghost use Rattle.circuit_model.specs.Netlists.{input_wires};
ghost use Rattle.plain_eval.specs.Values.{value};

use circuit_model::Circuit;
use mpc_ring::Ring;
use std::alloc::{AllocError, Global};

/// The value of every wire, from the words on the input wires; 0 for a wire that is never set.
pub fn eval(
    alloc: Global,
    circuit: &Circuit,
    ring: Ring,
    inputs: &[u64],
) -> Result<Vec<u64>, AllocError>
    requires long { length inputs.now ≡ input_wires circuit.now }
    requires words { All (λ word. word < 2 ^ ring) inputs.now }
    ensures long { IfOk result (λ list. vec_len list ≡ circuit.now.wires) }
    ensures values { IfOk result (λ list. (w : ℕ) → slice_index list.items w ≡ value ring circuit.now inputs.now w) }
    ensures words { IfOk result (λ list. All (λ word. word < 2 ^ ring) list.items) }
{
    let mut values = given(alloc, circuit.wires() as usize, inputs)?;
    for i in 0..circuit.gates() {
        let gate = circuit.gate(i);
        let first = values[gate.first as usize];
        let second = values[gate.second as usize];
        let word = gate.operation.apply(ring, gate.constant, first, second);
        values[gate.output as usize] = word;
    }
    Ok(values)
}

// The words on the input wires, and 0 on all others.
fn given(alloc: Global, wires: usize, inputs: &[u64]) -> Result<Vec<u64>, AllocError>
    requires { length inputs.now ≤ wires }
    ensures { IfOk result (λ list. list.items ≡ inputs.now ++ replicate (wires - length inputs.now) 0) }
{
    let mut list = Vec::with_capacity(alloc, wires)?;
    list.extend_from_slice(inputs)?;
    list.resize(wires, 0)?;
    Ok(list)
}
