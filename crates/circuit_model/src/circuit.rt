//! Valid circuits.
ghost use Rattle.std.specs.Prelude.{◌≡◌, ◌≤◌, sum};

use crate::gate::Gate;
use job_limits::MOST_WIRES;
use mpc_ring::Ring;
use std::marker::Model;

/// A valid circuit: its gates read only wires that are set and set each wire once, every output wire is set, and all
/// is within the limits. The first wires are those of the input values, in order, and the last those of the output
/// values. Contracts see it as its parts.
#[derive(Drop)]
pub struct Circuit {
    ring: Ring,
    gates: Vec<Gate>,
    wires: u32,
    inputs: Vec<u64>,
    outputs: Vec<u64>,
    input_wires: u32,
    output_wires: u32,
}

impl Model for Circuit {
    ghost use Rattle.std.specs.Prelude.{◌≡◌, sum};
    ghost use Rattle.circuit_model.specs.Netlists.{Netlist, IsCircuit};

    ghost Value = { Netlist };

    ghost view = { λ c. record {
      bits = c.ring;
      gates = c.gates.items;
      wires = c.wires;
      inputs = c.inputs.items;
      outputs = c.outputs.items;
    } };

    ghost invariant = { λ c. IsCircuit (record {
      bits = c.ring;
      gates = c.gates.items;
      wires = c.wires;
      inputs = c.inputs.items;
      outputs = c.outputs.items;
    }) × (c.input_wires ≡ sum c.inputs.items)
        × (c.output_wires ≡ sum c.outputs.items) };
}

impl Circuit {
    ghost use Rattle.std.specs.Prelude.{◌≡◌, ◌<◌, length};
    ghost use Rattle.circuit_model.specs.Netlists.{IsCircuit, gate, input_wires, output_wires};

    /// The circuit with these parts. Nothing is checked: that it is valid is the caller's to prove.
    pub fn of(
        ring: Ring,
        gates: Vec<Gate>,
        wires: u32,
        inputs: Vec<u64>,
        outputs: Vec<u64>,
    ) -> Circuit
        requires { IsCircuit (record {
          bits = ring;
          gates = gates.items;
          wires = wires;
          inputs = inputs.items;
          outputs = outputs.items;
        }) }
        ensures { result ≡ record {
          bits = ring;
          gates = gates.items;
          wires = wires;
          inputs = inputs.items;
          outputs = outputs.items;
        } }
    {
        let input_wires = count_wires(&inputs);
        let output_wires = count_wires(&outputs);
        Circuit {
            ring,
            gates,
            wires,
            inputs,
            outputs,
            input_wires,
            output_wires,
        }
    }

    /// The ring of the circuit's words.
    pub fn ring(&self) -> Ring
        ensures is { result ≡ self.now.bits }
        ensures valid { IsCircuit self.now }
    {
        self.ring
    }

    /// How many gates there are.
    pub fn gates(&self) -> u32
        ensures { result ≡ length self.now.gates }
    {
        self.gates.len() as u32
    }

    /// How many wires there are.
    pub fn wires(&self) -> u32
        ensures is { result ≡ self.now.wires }
        ensures valid { IsCircuit self.now }
    {
        self.wires
    }

    /// How many input wires there are.
    pub fn inputs(&self) -> u32
        ensures { result ≡ input_wires self.now }
    {
        self.input_wires
    }

    /// How many output wires there are.
    pub fn outputs(&self) -> u32
        ensures { result ≡ output_wires self.now }
    {
        self.output_wires
    }

    /// Gate i, counted from 0 in the order of the file.
    pub fn gate(&self, i: u32) -> Gate
        requires { i < length self.now.gates }
        ensures { result ≡ gate self.now i }
    {
        self.gates[i as usize]
    }

    /// How many wires each input value has.
    pub fn input_widths(&self) -> &[u64]
        ensures { result.now ≡ self.now.inputs }
    {
        &self.inputs
    }

    /// How many wires each output value has.
    pub fn output_widths(&self) -> &[u64]
        ensures { result.now ≡ self.now.outputs }
    {
        &self.outputs
    }

    /// The circuit with other gates. That it is valid is the caller's to prove.
    pub fn with_gates(self, gates: Vec<Gate>) -> Circuit
        requires { IsCircuit (record self { gates = gates.items }) }
        ensures { result ≡ record self { gates = gates.items } }
    {
        Circuit { gates, ..self }
    }

    /// All gates, in order.
    pub fn into_gates(self) -> Vec<Gate>
        ensures { result.items ≡ self.gates }
    {
        self.gates
    }
}

/// How many wires values of these widths have.
pub(crate) fn count_wires(widths: &[u64]) -> u32
    requires { sum widths.now ≤ MOST_WIRES }
    ensures { result ≡ sum widths.now }
{
    widths.iter().sum::<u64>() as u32
}
