//! A circuit of which some lines were read.
ghost use Rattle.std.specs.Prelude.{◌≡◌, ◌^◌};
ghost use Rattle.expr_circuit.specs.Circuits as circuits;
ghost use Rattle.expr_circuit.specs.Walks.{input_in, define_in, output_in, read_in, line_in, netlist_in};
ghost use Rattle.expr_circuit.specs.Kept.{Gives, IsSound};
ghost use Rattle.expr_circuit.specs.Keeps.{Keeps, Becomes};

use crate::fault::ExprFault;
use crate::gates::Gates;
use crate::names::NamedWires;
use crate::program_line::ProgramLine;
use crate::wire::{Pending, Wire};
use circuit_model::Circuit;
use line_grammar::{Dialect, ExprElement, Head, LineParser, parse_line};
use mpc_ring::Ring;
use std::alloc::Global;
use text_tokens::word_bytes;

/// What the lines so far make: the wire of each name, and gates.
#[derive(Drop)]
pub struct Draft<'a> {
    pub names: NamedWires<'a>,
    pub gates: Gates,
}

impl<'a> Draft<'a> {
    pub fn new(alloc: Global) -> Draft<'a>
        ensures { Keeps result circuits.no_lines }
    {
        Draft {
            names: NamedWires::new(alloc),
            gates: Gates::new(alloc),
        }
    }

    /// Adds an input.
    fn input(&mut self, line: u64, name: &'a [u8]) -> Result<(), ExprFault>
        ensures { (d : circuits.Draft) → Keeps self.old d → Becomes result self.new (input_in d line name.now) }
    {
        match self
            .names
            .bind(line, name, Wire::Input(self.gates.inputs()))
        {
            Ok(()) => self.gates.input(),
            Err(fault) => Err(fault),
        }
    }

    /// Adds a name for an expression.
    fn define(
        &mut self,
        line: &ProgramLine<'_>,
        name: &'a [u8],
        elements: &[ExprElement],
        wires: &mut Pending,
    ) -> Result<(), ExprFault>
        ensures { (d : circuits.Draft) → Keeps self.old d → Becomes result self.new
            (define_in (2 ^ line.now.ring) d line.now.number line.now.text.now name.now elements.now) }
    {
        match self.gates.expression(&self.names, line, elements, wires) {
            Ok(wire) => self.names.bind(line.number, name, wire),
            Err(fault) => Err(fault),
        }
    }

    /// Adds an output.
    fn output(
        &mut self,
        line: &ProgramLine<'_>,
        elements: &[ExprElement],
        wires: &mut Pending,
    ) -> Result<(), ExprFault>
        ensures { (d : circuits.Draft) → Keeps self.old d → Becomes result self.new
            (output_in (2 ^ line.now.ring) d line.now.number line.now.text.now elements.now) }
    {
        match self.gates.expression(&self.names, line, elements, wires) {
            Ok(wire) => self.gates.output(wire),
            Err(fault) => Err(fault),
        }
    }

    /// Adds what was read of a line.
    fn read(
        &mut self,
        line: &ProgramLine<'a>,
        head: Head,
        elements: &[ExprElement],
        wires: &mut Pending,
    ) -> Result<(), ExprFault>
        ensures { (d : circuits.Draft) → Keeps self.old d → Becomes result self.new
            (read_in (2 ^ line.now.ring) d line.now.number line.now.text.now head elements.now) }
    {
        match head {
            Head::Input(at) => self.input(line.number, word_bytes(line.text, at)),
            Head::WideInput(at, _) => self.input(line.number, word_bytes(line.text, at)),
            Head::Let(at) => {
                let name = word_bytes(line.text, at);
                self.define(line, name, elements, wires)
            }
            Head::Output => self.output(line, elements, wires),
        }
    }

    /// Adds a line.
    pub fn line(
        &mut self,
        line: &ProgramLine<'a>,
        parser: &mut LineParser,
        wires: &mut Pending,
    ) -> Result<(), ExprFault>
        ensures { (d : circuits.Draft) → Keeps self.old d → Becomes result self.new
            (line_in (2 ^ line.now.ring) d line.now.number line.now.text.now) }
    {
        match parse_line(parser, Dialect::Words, line.text) {
            Ok(Some(head)) => self.read(line, head, parser.elements(), wires),
            Ok(None) => Ok(()),
            Err(fault) => Err(ExprFault::of_line(line.number, fault)),
        }
    }

    /// The circuit, if it is within the limits.
    pub fn circuit(&mut self, alloc: Global, ring: Ring) -> Result<Circuit, ExprFault>
        requires { (d : circuits.Draft) × Keeps self.old d × IsSound ring d }
        ensures { (d : circuits.Draft) → Keeps self.old d → Gives result (netlist_in ring d) }
    {
        self.gates.circuit(alloc, ring)
    }
}
