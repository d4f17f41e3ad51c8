//! What the lines of a program make, up to some line.
ghost use Rattle.std.specs.Prelude.{◌≡◌, ◌++◌, ◌∷◌, ℕ, [], List, None, nat_lt, OnOk, if◌then◌else◌};
ghost use Rattle.number_gates.specs.Steps.{no_gates};
ghost use Rattle.line_grammar.specs.Grammar.{Expr, LineForm};
ghost use Rattle.line_grammar.specs.Grammar.LineForm.{wide_input_line, let_line, output_line};
ghost use Rattle.line_grammar.specs.Postfix.{post, read_of};
ghost use Rattle.number_circuit.specs.Programs.{Statement};
ghost use Rattle.line_grammar.specs.Places.{number_at};
ghost use Rattle.number_circuit.specs.Faults.{bad_width};
ghost use Rattle.number_compiler.specs.Circuits as circuits;
ghost use Rattle.number_compiler.specs.Circuits.{no_lines, with_output, is_large};
ghost use Rattle.number_compiler.specs.Keeps.{Keeps, TakesLine, TakesForm, IsDraftOf, Assembles};
ghost use Rattle.number_compiler.specs.Seen.{seen};

use crate::assembly::{all_gates, assemble};
use crate::elements::{NumberLine, expression};
use crate::inputs::{input_number, width_at};
use crate::names::NamedNumbers;
use crate::number::Number;
use crate::pending::Pending;
use circuit_model::Circuit;
use job_limits::{MOST_GATES, MOST_VALUES, MOST_WIRES};
use line_grammar::{Dialect, ExprElement, Head, LineParser, parse_line};
use mpc_ring::Ring;
use number_circuit::NumberFault;
use number_gates::{Bit, BitGates};
use std::alloc::{AllocError, Global};
use text_tokens::word_bytes;

/// What the lines so far make: the numbers of names, gates, how many input wires there are, the widths of inputs and
/// outputs, and the bits of outputs, but not of those that are past the limit.
#[derive(Drop)]
pub struct Draft<'a> {
    names: NamedNumbers<'a>,
    gates: BitGates,
    wires: u64,
    inputs: Vec<u64>,
    outputs: Vec<u64>,
    bits: Vec<Bit>,
}

/// Adds a width.
fn push_width(widths: &mut Vec<u64>, width: u64) -> Result<(), AllocError>
    ensures { OnOk result (widths.new.items ≡ widths.old.items ++ (width ∷ [])) }
{
    Ok(widths.push(width)?)
}

/// Adds the bits of an output, unless there are too many outputs before it.
fn push_bits(bits: &mut Vec<Bit>, outputs: u64, more: &[Bit]) -> Result<(), AllocError>
    ensures { OnOk result (bits.new.items
        ≡ (if nat_lt outputs MOST_VALUES then bits.old.items ++ more.now else bits.old.items)) }
{
    if outputs < MOST_VALUES {
        bits.extend_from_slice(more)?;
    }
    Ok(())
}

impl<'a> Draft<'a> {
    pub fn new(alloc: Global) -> Draft<'a>
        ensures keeps { Keeps result no_lines }
        ensures gates { result.gates ≡ no_gates }
    {
        Draft {
            names: NamedNumbers::new(alloc),
            gates: BitGates::new(alloc),
            wires: 0,
            inputs: Vec::new(alloc),
            outputs: Vec::new(alloc),
            bits: Vec::new(alloc),
        }
    }

    /// Adds an input whose values are the words of a ring.
    fn named_input(
        &mut self,
        alloc: Global,
        line: &NumberLine<'a>,
        name: usize,
        ring: Ring,
    ) -> Result<(), NumberFault>
        ensures { (d : circuits.Draft) (width : ℕ) → Keeps self.old d → ring ≡ number_at line.now.text.now width
            → bad_width line.now.text.now line.now.number width ≡ None
            → TakesForm d line.now.text.now line.now.number (wide_input_line name width) self.old result self.new }
    {
        let width = ring.bits() as u64;
        let end = match self.wires.checked_add(width) {
            Some(end) => end,
            None => return Err(NumberFault::Memory),
        };
        let number = input_number(alloc, self.wires, end, ring)?;
        push_width(&mut self.inputs, width)?;
        self.wires = end;
        self.names
            .bind(line.number, word_bytes(line.text, name), number)
    }

    /// Adds an input.
    fn input(
        &mut self,
        alloc: Global,
        line: &NumberLine<'a>,
        name: usize,
        width: usize,
    ) -> Result<(), NumberFault>
        ensures { (d : circuits.Draft) → Keeps self.old d → TakesForm d line.now.text.now line.now.number
            (wide_input_line name width) self.old result self.new }
    {
        match width_at(line, width) {
            Ok(ring) => self.named_input(alloc, line, name, ring),
            Err(fault) => Err(fault),
        }
    }

    /// Adds a name for an expression.
    fn define(
        &mut self,
        alloc: Global,
        line: &NumberLine<'a>,
        name: usize,
        elements: &[ExprElement],
        pending: &mut Pending,
    ) -> Result<(), NumberFault>
        ensures { (d : circuits.Draft) (e : Expr) → Keeps self.old d → elements.now ≡ post e []
            → TakesForm d line.now.text.now line.now.number (let_line name e) self.old result self.new }
    {
        match expression(alloc, &mut self.gates, &self.names, line, elements, pending) {
            Ok(number) => self
                .names
                .bind(line.number, word_bytes(line.text, name), number),
            Err(fault) => Err(fault),
        }
    }

    /// Keeps an output.
    fn keep_output(&mut self, number: &Number) -> Result<(), AllocError>
        ensures keeps { (d : circuits.Draft) → Keeps self.old d
            → OnOk result (Keeps self.new (with_output d (seen number.now))) }
        ensures gates { self.new.gates ≡ self.old.gates }
    {
        push_bits(&mut self.bits, self.outputs.len() as u64, &number.bits)?;
        push_width(&mut self.outputs, number.bits.len() as u64)
    }

    /// Adds an output.
    fn output(
        &mut self,
        alloc: Global,
        line: &NumberLine<'a>,
        elements: &[ExprElement],
        pending: &mut Pending,
    ) -> Result<(), NumberFault>
        ensures { (d : circuits.Draft) (e : Expr) → Keeps self.old d → elements.now ≡ post e []
            → TakesForm d line.now.text.now line.now.number (output_line e) self.old result self.new }
    {
        match expression(alloc, &mut self.gates, &self.names, line, elements, pending) {
            Ok(number) => Ok(self.keep_output(&number)?),
            Err(fault) => Err(fault),
        }
    }

    /// Adds what was read of a line. Each input has a width.
    fn read(
        &mut self,
        alloc: Global,
        line: &NumberLine<'a>,
        head: Head,
        elements: &[ExprElement],
        pending: &mut Pending,
    ) -> Result<(), NumberFault>
        ensures { (d : circuits.Draft) (form : LineForm) → Keeps self.old d
            → record { head = head; elements = elements.now } ≡ read_of form
            → TakesForm d line.now.text.now line.now.number form self.old result self.new }
    {
        match head {
            Head::Input(_) => Ok(()),
            Head::WideInput(name, width) => self.input(alloc, line, name, width),
            Head::Let(name) => self.define(alloc, line, name, elements, pending),
            Head::Output => self.output(alloc, line, elements, pending),
        }
    }

    /// Adds a line.
    pub fn line(
        &mut self,
        alloc: Global,
        line: &NumberLine<'a>,
        parser: &mut LineParser,
        pending: &mut Pending,
    ) -> Result<(), NumberFault>
        ensures { (d : circuits.Draft) → Keeps self.old d
            → TakesLine d line.now.text.now line.now.number self.old result self.new }
    {
        match parse_line(parser, Dialect::Numbers, line.text) {
            Ok(Some(head)) => self.read(alloc, line, head, parser.elements(), pending),
            Ok(None) => Ok(()),
            Err(fault) => Err(NumberFault::of_line(line.number, fault)),
        }
    }

    /// Whether the circuit would pass a limit.
    fn is_large(&self) -> bool
        ensures { (d : circuits.Draft) → Keeps self.now d
            → result ≡ is_large (record { result = d; kept = self.now.gates }) }
    {
        if self.inputs.len() as u64 > MOST_VALUES {
            return true;
        }
        if self.outputs.len() as u64 > MOST_VALUES {
            return true;
        }
        let gates = self.gates.gates();
        if gates > MOST_GATES {
            return true;
        }
        let copies = self.bits.len() as u64;
        if copies > MOST_GATES - gates {
            return true;
        }
        self.wires > MOST_WIRES - gates - copies
    }

    /// The circuit, if it is within the limits.
    pub fn circuit(&self, alloc: Global) -> Result<Circuit, NumberFault>
        requires { (p : List Statement) × IsDraftOf self.now p }
        ensures { (p : List Statement) → IsDraftOf self.now p → Assembles p result }
    {
        if self.is_large() {
            return Err(NumberFault::TooLarge);
        }
        let gates = all_gates(alloc, self.gates.drafted(), &self.bits)?;
        Ok(assemble(alloc, self.wires, &gates, &self.inputs, &self.outputs)?)
    }
}
