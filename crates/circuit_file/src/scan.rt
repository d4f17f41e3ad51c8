//! Gate lines, read in one go as long as nothing is wrong with them.
ghost use Rattle.std.specs.Prelude.{◌≡◌, ◌≤◌, IfSome, MatchOption, length, take};
ghost use Rattle.circuit_file.specs.Steps.{TakesNumbers, IsFirstGate};

use crate::gate_line::{Form, ParsedGate};
use crate::layout::operation_named;
use circuit_model::CircuitLayout;
use gate_lines::{Cursor, Lines};

/// The numbers of the next two or three tokens.
fn take_wires(cursor: &mut Cursor<'_>, count: usize) -> Option<[u64; 3]>
    requires { (2 ≤ count) × (count ≤ 3) }
    ensures taken { IfSome result (λ wires. TakesNumbers cursor.old (take count wires) cursor.new) }
    ensures long { IfSome result (λ wires. length wires ≡ 3) }
{
    let first = cursor.number()?;
    let second = cursor.number()?;
    if count == 2 {
        return Some([first, second, 0]);
    }
    let third = cursor.number()?;
    Some([first, second, third])
}

/// What the next line says, if it has the form of a gate line with one or two input wires and one output wire.
/// Otherwise the lines stay.
#[inline(never)]
pub(crate) fn scan_gate(lines: &mut Lines<'_>, layout: CircuitLayout) -> Option<ParsedGate>
    ensures { MatchOption result (lines.new ≡ lines.old) (λ parsed. IsFirstGate layout lines.old parsed lines.new) }
{
    let mut cursor = lines.cursor();
    let line = cursor.line();
    let inputs = cursor.number()?;
    let outputs = cursor.number()?;
    if inputs == 0 || inputs > 2 || outputs != 1 {
        return None;
    }
    let count = (inputs + outputs) as usize;
    let wires = take_wires(&mut cursor, count)?;
    let operation = operation_named(layout, cursor.token()?)?;
    *lines = cursor.finish()?;
    let form = Form {
        operation,
        inputs: inputs as usize,
        wires: count,
    };
    Some(ParsedGate { line, form, wires })
}
