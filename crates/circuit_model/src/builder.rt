//! Circuits gate by gate.
ghost use Rattle.std.specs.Prelude.{◌≡◌, ◌≤◌, ◌<◌, ◌-◌, ℕ, [], false, not, length, slice_index_or, IfOk};
ghost use Rattle.std.specs.List.{find, range_with_len};
ghost use Rattle.circuit_model.specs.Netlists.{is_set};

use crate::checks::{check_gate, check_header};
use crate::circuit::{Circuit, count_wires};
use crate::fault::CircuitFault;
use crate::gate::{Gate, Operation};
use job_limits::MOST_WIRES;
use mpc_ring::Ring;
use std::alloc::{AllocError, Global};
use std::marker::Model;

/// A circuit in the making. A refusal stays: after one, each call answers it again.
#[derive(Drop)]
pub struct Builder {
    ring: Ring,
    announced: u64,
    set: Vec<bool>,
    gates: Vec<Gate>,
    inputs: Vec<u64>,
    outputs: Vec<u64>,
    refused: Option<CircuitFault>,
}

impl Model for Builder {
    ghost use Rattle.std.specs.Prelude.{length};
    ghost use Rattle.circuit_model.specs.DraftSteps.{Draft};
    ghost use Rattle.circuit_model.specs.Drafts.{IsDraft};

    ghost Value = { Draft };

    ghost view = { λ b. record {
      circuit = record {
        bits = b.ring;
        gates = b.gates.items;
        wires = length b.set.items;
        inputs = b.inputs.items;
        outputs = b.outputs.items;
      };
      announced = b.announced;
      refused = b.refused;
    } };

    ghost invariant = { λ b. IsDraft (record {
      circuit = record {
        bits = b.ring;
        gates = b.gates.items;
        wires = length b.set.items;
        inputs = b.inputs.items;
        outputs = b.outputs.items;
      };
      announced = b.announced;
      refused = b.refused;
    }) b.set.items };
}

impl Builder {
    ghost use Rattle.std.specs.Prelude.{◌≡◌, ◌<◌, nat_le, length};
    ghost use Rattle.circuit_model.specs.Checks.{Gives};
    ghost use Rattle.circuit_model.specs.DraftSteps.{start_of, after_gate, answer_of, circuit_of, Becomes};

    /// A circuit without gates yet, of `gates` gates to come, over `wires` wires, with values of these widths. `lines`
    /// has the numbers of the three header lines, for faults. Nothing is reserved for counts over the limits.
    pub fn start(
        alloc: Global,
        ring: Ring,
        gates: u64,
        wires: u64,
        inputs: Vec<u64>,
        outputs: Vec<u64>,
        lines: [u64; 3],
    ) -> Result<Builder, CircuitFault>
        ensures { Gives result (start_of ring gates wires inputs.items outputs.items lines) }
    {
        ring.recall();
        check_header(gates, wires, &inputs, &outputs, lines)?;
        let set = start_set(alloc, wires as usize, count_wires(&inputs))?;
        let gates_to_come = Vec::with_capacity(alloc, gates as usize)?;
        Ok(Builder {
            ring,
            announced: gates,
            set,
            gates: gates_to_come,
            inputs,
            outputs,
            refused: None,
        })
    }

    /// Whether all gates that were announced are there.
    pub fn is_full(&self) -> bool
        ensures { result ≡ nat_le self.now.announced (length self.now.circuit.gates) }
    {
        self.gates.len() as u64 >= self.announced
    }

    /// Adds the gate of this line, whose input wires and output wires are listed. A constant stands among the inputs.
    pub fn gate(
        &mut self,
        line: u64,
        operation: Operation,
        inputs: &[u64],
        outputs: &[u64],
    ) -> Result<(), CircuitFault>
        requires { length self.old.circuit.gates < self.old.announced }
        ensures answer { result ≡ answer_of self.new }
        ensures next { Becomes self.old (after_gate self.old line operation inputs.now outputs.now) self.new }
    {
        if let Some(fault) = self.refused {
            return Err(fault);
        }
        match check_gate(self.ring, &self.set, line, operation, inputs, outputs) {
            Err(fault) => {
                self.refused = Some(fault);
                Err(fault)
            }
            Ok(gate) => {
                if self.gates.push(gate).is_err() {
                    self.refused = Some(CircuitFault::Memory);
                    return Err(CircuitFault::Memory);
                }
                self.set[gate.output as usize] = true;
                Ok(())
            }
        }
    }

    /// The circuit of the gates that were added.
    pub fn finish(self) -> Result<Circuit, CircuitFault>
        ensures { result ≡ circuit_of self }
    {
        if let Some(fault) = self.refused {
            return Err(fault);
        }
        match first_unset(&self.set, count_wires(&self.outputs)) {
            Some(wire) => Err(CircuitFault::OutputNotSet { wire }),
            None => Ok(Circuit::of(
                self.ring,
                self.gates,
                self.set.len() as u32,
                self.inputs,
                self.outputs,
            )),
        }
    }
}

// Which wires are set before the first gate.
fn start_set(alloc: Global, wires: usize, inputs: u32) -> Result<Vec<bool>, AllocError>
    requires { inputs ≤ wires }
    ensures long { IfOk result (λ set. length set.items ≡ wires) }
    ensures told { IfOk result (λ set. (w : ℕ) → slice_index_or set.items w false ≡ is_set inputs [] w) }
{
    let mut set = vec![in alloc; false; wires]?;
    for wire in 0..inputs {
        set[wire as usize] = true;
    }
    Ok(set)
}

// The first of the last `outputs` wires that isn't set.
fn first_unset(set: &[bool], outputs: u32) -> Option<u32>
    requires within { outputs ≤ length set.now }
    requires few { length set.now ≤ MOST_WIRES }
    ensures { result ≡ find (λ w. not (slice_index_or set.now w false))
        (range_with_len (length set.now - outputs) outputs) }
{
    let wires = set.len() as u32;
    for wire in wires - outputs..wires {
        if !set[wire as usize] {
            return Some(wire);
        }
    }
    None
}
