//! The gates, inputs and outputs of a circuit of which some lines were read.
ghost use Rattle.std.specs.Prelude.{◌≡◌, ◌+◌, ◌^◌, ◌∷◌, ◌++◌, [], nat_lt, drop, OnOk, MatchResult, if◌then◌else◌};
ghost use Rattle.expr_circuit.specs.declared.fault.ExprFault.TheVariants.{Memory};
ghost use Rattle.expr_circuit.specs.Circuits.{Draft, add, no_wire, no_lines};
ghost use Rattle.expr_circuit.specs.Walks.{top, operation_of, element_in, expression_in, netlist_in};
ghost use Rattle.expr_circuit.specs.Named.{AreNames};
ghost use Rattle.expr_circuit.specs.Kept.{kept, OrMemory, Builds, Wires, Moves, Expresses, Gives, IsSound};

use crate::assembly::{assemble, push_copies};
use crate::fault::ExprFault;
use crate::names::{NamedWires, number_at};
use crate::program_line::ProgramLine;
use crate::wire::{DraftGate, Pending, Wire};
use circuit_model::{Circuit, Operation};
use job_limits::{MOST_GATES, MOST_VALUES};
use line_grammar::{ExprElement, Infix};
use mpc_ring::Ring;
use std::alloc::{AllocError, Global};
use std::marker::Model;
use text_tokens::word_bytes;

/// The gates and the wires of outputs. Those that are past a limit are counted, and not kept.
#[derive(Drop)]
pub struct Gates {
    drafted: Vec<DraftGate>,
    gates: u64,
    inputs: u64,
    outputs: Vec<Wire>,
    results: u64,
}

impl Model for Gates {
    ghost use Rattle.expr_circuit.specs.Kept.{Kept};

    ghost Value = { Kept };

    ghost view = { λ g. record {
      drafted = g.drafted.items;
      gates = g.gates;
      inputs = g.inputs;
      outputs = g.outputs.items;
      results = g.results;
    } };
}

/// One more.
fn next(count: u64) -> Result<u64, ExprFault>
    ensures { MatchResult result (λ more. more ≡ count + 1) (λ fault. fault ≡ Memory) }
{
    match count.checked_add(1) {
        Some(more) => Ok(more),
        None => Err(ExprFault::Memory),
    }
}

/// The operation of an operator between two operands. Words have three alone.
fn operation_of(operator: Infix) -> Operation
    ensures { result ≡ operation_of operator }
{
    match operator {
        Infix::Add => Operation::Add,
        Infix::Subtract => Operation::Sub,
        _ => Operation::Mul,
    }
}

impl Gates {
    pub fn new(alloc: Global) -> Gates
        ensures { result ≡ kept no_lines }
    {
        Gates {
            drafted: Vec::new(alloc),
            gates: 0,
            inputs: 0,
            outputs: Vec::new(alloc),
            results: 0,
        }
    }

    /// How many inputs there are.
    pub fn inputs(&self) -> u64
        ensures { result ≡ self.now.inputs }
    {
        self.inputs
    }

    /// Adds an input.
    pub fn input(&mut self) -> Result<(), ExprFault>
        ensures { OrMemory result (self.new ≡ record self.old { inputs = self.old.inputs + 1 }) }
    {
        self.inputs = next(self.inputs)?;
        Ok(())
    }

    /// Keeps a gate, unless there are too many.
    fn keep(&mut self, gate: DraftGate) -> Result<(), AllocError>
        ensures { OnOk result (self.new ≡ record self.old {
          drafted = if nat_lt self.old.gates MOST_GATES then self.old.drafted ++ (gate ∷ []) else self.old.drafted;
        }) }
    {
        if self.gates < MOST_GATES {
            self.drafted.push(gate)?;
        }
        Ok(())
    }

    /// Adds a gate, and tells its wire.
    fn gate(&mut self, gate: DraftGate) -> Result<Wire, ExprFault>
        ensures { (d : Draft) → self.old ≡ kept d
            → Builds d (add d.gates gate.operation gate.first gate.second gate.constant) result self.new }
    {
        let wire = Wire::Gate(self.gates);
        self.keep(gate)?;
        self.gates = next(self.gates)?;
        Ok(wire)
    }

    /// Adds the gate of an operator, whose operands are the last two of these wires.
    fn operator(&mut self, operation: Operation, wires: &mut Pending) -> Result<Wire, ExprFault>
        ensures built { (d : Draft) → self.old ≡ kept d
            → Builds d (add d.gates operation (top (drop 1 wires.old)) (top wires.old) 0) result self.new }
        ensures rest { wires.new ≡ drop 2 wires.old }
    {
        let right = wires.pop();
        let left = wires.pop();
        self.gate(DraftGate {
            operation,
            first: left,
            second: right,
            constant: 0,
        })
    }

    /// Adds the gate of a number.
    fn constant(&mut self, constant: u64) -> Result<Wire, ExprFault>
        ensures { (d : Draft) → self.old ≡ kept d
            → Builds d (add d.gates Operation.Eq no_wire no_wire constant) result self.new }
    {
        self.gate(DraftGate {
            operation: Operation::Eq,
            first: Wire::Input(0),
            second: Wire::Input(0),
            constant,
        })
    }

    /// Adds the gate of a minus sign.
    fn negate(&mut self, wires: &mut Pending) -> Result<Wire, ExprFault>
        ensures built { (d : Draft) → self.old ≡ kept d
            → Builds d (add d.gates Operation.Neg (top wires.old) no_wire 0) result self.new }
        ensures rest { wires.new ≡ drop 1 wires.old }
    {
        let first = wires.pop();
        self.gate(DraftGate {
            operation: Operation::Neg,
            first,
            second: Wire::Input(0),
            constant: 0,
        })
    }

    /// The wire of an element, whose operands are the last of these wires.
    fn wire(
        &mut self,
        names: &NamedWires<'_>,
        line: &ProgramLine<'_>,
        element: ExprElement,
        wires: &mut Pending,
    ) -> Result<Wire, ExprFault>
        ensures { (d : Draft) → AreNames names.now d.of → self.old ≡ kept d → Wires d result self.new wires.new
            (element_in (2 ^ line.now.ring) d.of line.now.number line.now.text.now element
            (record { gates = d.gates; wires = wires.old })) }
    {
        match element {
            ExprElement::Name(at) => match names.wire(word_bytes(line.text, at)) {
                Some(wire) => Ok(wire),
                None => Err(ExprFault::UnknownName {
                    line: line.number,
                    at: at as u64,
                }),
            },
            ExprElement::Number(at) => match number_at(line.text, at, line.ring) {
                Some(constant) => self.constant(constant),
                None => Err(ExprFault::BadConstant {
                    line: line.number,
                    at: at as u64,
                }),
            },
            ExprElement::Prefix(_) => self.negate(wires),
            ExprElement::Infix(infix, _) => self.operator(operation_of(infix), wires),
            ExprElement::Pair(_) | ExprElement::Choose => Ok(wires.pop()),
        }
    }

    /// Puts the wire of an element in the place of those of its operands.
    fn element(
        &mut self,
        names: &NamedWires<'_>,
        line: &ProgramLine<'_>,
        element: ExprElement,
        wires: &mut Pending,
    ) -> Result<(), ExprFault>
        ensures { (d : Draft) → AreNames names.now d.of → self.old ≡ kept d → Moves d result self.new wires.new
            (element_in (2 ^ line.now.ring) d.of line.now.number line.now.text.now element
            (record { gates = d.gates; wires = wires.old })) }
    {
        let wire = self.wire(names, line, element, wires)?;
        Ok(wires.push(wire)?)
    }

    /// The wire of an expression.
    pub fn expression(
        &mut self,
        names: &NamedWires<'_>,
        line: &ProgramLine<'_>,
        elements: &[ExprElement],
        wires: &mut Pending,
    ) -> Result<Wire, ExprFault>
        ensures { (d : Draft) → AreNames names.now d.of → self.old ≡ kept d → Expresses d result self.new
            (expression_in (2 ^ line.now.ring) d line.now.number line.now.text.now elements.now) }
    {
        wires.clear();
        for element in elements {
            match self.element(names, line, *element, wires) {
                Ok(()) => {}
                Err(fault) => return Err(fault),
            }
        }
        Ok(wires.pop())
    }

    /// Keeps an output, unless there are too many.
    fn keep_output(&mut self, wire: Wire) -> Result<(), AllocError>
        ensures { OnOk result (self.new ≡ record self.old {
          outputs = if nat_lt self.old.results MOST_VALUES then self.old.outputs ++ (wire ∷ []) else self.old.outputs;
        }) }
    {
        if self.results < MOST_VALUES {
            self.outputs.push(wire)?;
        }
        Ok(())
    }

    /// Adds an output.
    pub fn output(&mut self, wire: Wire) -> Result<(), ExprFault>
        ensures { (d : Draft) → self.old ≡ kept d → OrMemory result
            (self.new ≡ kept (record d { outputs = d.outputs ++ (wire ∷ []) })) }
    {
        self.keep_output(wire)?;
        self.results = next(self.results)?;
        Ok(())
    }

    /// The circuit, if it is within the limits.
    pub fn circuit(&mut self, alloc: Global, ring: Ring) -> Result<Circuit, ExprFault>
        requires { (d : Draft) × (self.old ≡ kept d) × IsSound ring d }
        ensures { (d : Draft) → self.old ≡ kept d → Gives result (netlist_in ring d) }
    {
        let inputs = self.inputs;
        let results = self.results;
        let gates = self.gates;
        if inputs > MOST_VALUES {
            return Err(ExprFault::TooLarge);
        }
        if results > MOST_VALUES {
            return Err(ExprFault::TooLarge);
        }
        if gates > MOST_GATES - results {
            return Err(ExprFault::TooLarge);
        }
        let outputs = self.outputs.len();
        push_copies(&mut self.drafted, &self.outputs)?;
        Ok(assemble(alloc, ring, inputs, &self.drafted, outputs)?)
    }
}
