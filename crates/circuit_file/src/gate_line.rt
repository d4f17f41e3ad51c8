//! The form of a gate line.
ghost use Rattle.std.specs.Prelude.{◌≡◌, ◌≤◌, ◌<◌, ◌+◌, nat_lt, None, Err, IfOk, MatchResult, length, take};
ghost use Rattle.list_laws.specs.Checks.{first_fault, or_fault};
ghost use Rattle.circuit_file.specs.GateLines.{form_checks, form_of};
ghost use Rattle.gate_lines.specs.Rows.{Row};
ghost use Rattle.circuit_model.specs.Netlists.{Netlist};
ghost use Rattle.circuit_file.specs.Tokens.{tokens_after, numbers_in};
ghost use Rattle.circuit_file.specs.CircuitFiles.{gate_in};
ghost use Rattle.circuit_model.specs.declared.layout.CircuitLayout.{CircuitLayout};
ghost use Rattle.circuit_file.specs.Steps.{IsParsedGate, AddsGate};

use crate::layout::operation_of;
use crate::tokens::{after, all_numbers, number_in};
use circuit_model::{Builder, CircuitFault, CircuitLayout, Operation, check};
use gate_lines::Line;

/// What the tokens of a gate line are: the operation, behind `wires` wires, of which the first `inputs` are inputs.
#[derive(Clone, Copy)]
pub(crate) struct Form {
    pub operation: Operation,
    pub inputs: usize,
    pub wires: usize,
}

/// What a gate line says: its number, its form, and the numbers of its wires.
#[derive(Clone, Copy)]
pub(crate) struct ParsedGate {
    pub line: u64,
    pub form: Form,
    pub wires: [u64; 3],
}

fn is_less(found: u64, inputs: u64, outputs: u64) -> bool
    ensures { result ≡ nat_lt found (inputs + outputs + 3) }
{
    u128::from(found) < u128::from(inputs) + u128::from(outputs) + 3
}

fn is_more(found: u64, inputs: u64, outputs: u64) -> bool
    ensures { result ≡ nat_lt (inputs + outputs + 3) found }
{
    u128::from(found) > u128::from(inputs) + u128::from(outputs) + 3
}

/// The form of a gate line, or its first fault.
#[tactic(auto, unfolding(crate::specs::GateLines::form_checks))]
pub(crate) fn read_form(row: &Line<'_>, layout: CircuitLayout) -> Result<Form, CircuitFault>
    ensures form { result ≡ or_fault (first_fault (form_checks layout row.now)) (form_of layout row.now) }
    ensures inputs { IfOk result (λ form. form.inputs ≤ form.wires) }
    ensures long { IfOk result (λ form. length row.now.tokens ≡ form.wires + 3) }
{
    let line = row.number();
    let found = row.count();
    check(found < 2, CircuitFault::ShortLine { line })?;
    check(
        !all_numbers(row.tokens(), 2),
        CircuitFault::BadNumber { line },
    )?;
    let inputs = number_in(row.token(0));
    let outputs = number_in(row.token(1));
    check(
        is_less(found, inputs, outputs),
        CircuitFault::ShortLine { line },
    )?;
    check(
        is_more(found, inputs, outputs),
        CircuitFault::LongLine { line },
    )?;
    let wires = (inputs + outputs) as usize;
    check(
        !all_numbers(after(row.tokens(), 2), wires),
        CircuitFault::BadNumber { line },
    )?;
    let operation = operation_of(layout, row.token(inputs + outputs + 2));
    check(operation.is_none(), CircuitFault::UnknownOperation { line })?;
    Ok(Form {
        operation: operation.unwrap_or(Operation::Eqw),
        inputs: inputs as usize,
        wires,
    })
}

/// The numbers of the first `count` wires of a gate line.
fn read_wires(row: &Line<'_>, count: usize) -> [u64; 3]
    requires few { count ≤ 3 }
    requires long { count + 2 ≤ length row.now.tokens }
    ensures { take count result ≡ numbers_in (tokens_after 2 count row.now) }
{
    let mut wires = [0; 3];
    for at in 0..count {
        wires[at] = number_in(row.token(at as u64 + 2));
    }
    wires
}

/// What a gate line says, or its first fault. A line that has more wires than any operation has none that fits.
#[cold]
pub(crate) fn read_gate(row: &Line<'_>, layout: CircuitLayout) -> Result<ParsedGate, CircuitFault>
    ensures { MatchResult result (IsParsedGate layout row.now)
        (λ fault. (c : Netlist) → gate_in layout c row.now ≡ Err fault) }
{
    let form = read_form(row, layout)?;
    let line = row.number();
    check(form.wires > 3, CircuitFault::WrongArity { line })?;
    Ok(ParsedGate {
        line,
        form,
        wires: read_wires(row, form.wires),
    })
}

/// Adds the gate that a line says, or finds why it can't be next.
pub(crate) fn add_gate(parsed: &ParsedGate, builder: &mut Builder) -> Result<(), CircuitFault>
    requires room { length builder.old.circuit.gates < builder.old.announced }
    requires going { builder.old.refused ≡ None }
    requires form { (parsed.now.form.inputs ≤ parsed.now.form.wires) × (parsed.now.form.wires ≤ 3) }
    ensures { (layout : CircuitLayout) (row : Row) → IsParsedGate layout row parsed.now
        → AddsGate layout row builder.old result builder.new }
{
    let (inputs, outputs) = parsed.wires[..parsed.form.wires].split_at(parsed.form.inputs);
    builder.gate(parsed.line, parsed.form.operation, inputs, outputs)
}
