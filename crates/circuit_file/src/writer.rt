//! Writing a circuit.
ghost use Rattle.std.specs.Prelude.{◌≡◌, ◌∷◌, ◌++◌, [], map, decimal, OnOk, IfOk};
ghost use Rattle.circuit_file.specs.CircuitTexts.{operation_name, spaced, parts_text, lines_text, gate_numbers, gate_parts, circuit_text};

use circuit_model::{Circuit, Gate, Operation};
use itoa::Buffer;
use std::alloc::{AllocError, Global};

fn push(text: &mut Vec<u8>, bytes: &[u8]) -> Result<(), AllocError>
    ensures { OnOk result (text.new.items ≡ text.old.items ++ bytes.now) }
{
    text.extend_from_slice(bytes)
}

fn push_number(text: &mut Vec<u8>, number: u64) -> Result<(), AllocError>
    ensures { OnOk result (text.new.items ≡ text.old.items ++ decimal number) }
{
    push(text, Buffer::new().format(number).as_bytes())
}

/// Adds numbers, each after a space.
fn push_spaced(text: &mut Vec<u8>, numbers: &[u64]) -> Result<(), AllocError>
    ensures { OnOk result (text.new.items ≡ text.old.items ++ spaced (map decimal numbers.now)) }
{
    for number in numbers {
        push(text, b" ")?;
        push_number(text, *number)?;
    }
    Ok(())
}

/// Adds numbers separated by a space.
fn push_numbers(text: &mut Vec<u8>, first: u64, others: &[u64]) -> Result<(), AllocError>
    ensures { OnOk result (text.new.items ≡ text.old.items ++ parts_text (map decimal (first ∷ others.now))) }
{
    push_number(text, first)?;
    push_spaced(text, others)
}

/// Adds a line of numbers.
fn push_line(text: &mut Vec<u8>, first: u64, others: &[u64]) -> Result<(), AllocError>
    ensures { OnOk result (text.new.items ≡ text.old.items ++ lines_text (map decimal (first ∷ others.now) ∷ [])) }
{
    push_numbers(text, first, others)?;
    push(text, b"\n")
}

/// The name of an operation.
fn operation_name(operation: Operation) -> &'static [u8]
    ensures { result.now ≡ operation_name operation }
{
    match operation {
        Operation::Add => b"ADD",
        Operation::Sub => b"SUB",
        Operation::Neg => b"NEG",
        Operation::Mul => b"MUL",
        Operation::Xor => b"XOR",
        Operation::And => b"AND",
        Operation::Inv => b"INV",
        Operation::Eq => b"EQ",
        Operation::Eqw => b"EQW",
    }
}

/// Adds the numbers of a gate's line.
fn push_gate_numbers(text: &mut Vec<u8>, gate: Gate) -> Result<(), AllocError>
    ensures { OnOk result (text.new.items ≡ text.old.items ++ parts_text (map decimal (gate_numbers gate))) }
{
    let first = u64::from(gate.first);
    let second = u64::from(gate.second);
    let output = u64::from(gate.output);
    if gate.operation.is_constant() {
        push_numbers(text, 1, &[1, gate.constant, output])
    } else if gate.operation.arity() == 2 {
        push_numbers(text, 2, &[1, first, second, output])
    } else {
        push_numbers(text, 1, &[1, first, output])
    }
}

/// Adds the line of a gate.
fn push_gate(text: &mut Vec<u8>, gate: Gate) -> Result<(), AllocError>
    ensures { OnOk result (text.new.items ≡ text.old.items ++ lines_text (gate_parts gate ∷ [])) }
{
    push_gate_numbers(text, gate)?;
    push(text, b" ")?;
    push(text, operation_name(gate.operation))?;
    push(text, b"\n")?;
    Ok(())
}

/// Adds the lines of a circuit's gates.
fn push_gates(text: &mut Vec<u8>, circuit: &Circuit) -> Result<(), AllocError>
    ensures { OnOk result (text.new.items ≡ text.old.items ++ lines_text (map gate_parts circuit.now.gates)) }
{
    for at in 0..circuit.gates() {
        push_gate(text, circuit.gate(at))?;
    }
    Ok(())
}

/// The text of a circuit. A layout that has its operations reads it back.
pub fn write(alloc: Global, circuit: &Circuit) -> Result<Vec<u8>, AllocError>
    ensures { IfOk result (λ text. text.items ≡ circuit_text circuit.now) }
{
    let inputs = circuit.input_widths();
    let outputs = circuit.output_widths();
    let mut text = Vec::new(alloc);
    let wires = u64::from(circuit.wires());
    push_line(&mut text, u64::from(circuit.gates()), &[wires])?;
    push_line(&mut text, inputs.len() as u64, inputs)?;
    push_line(&mut text, outputs.len() as u64, outputs)?;
    push_gates(&mut text, circuit)?;
    Ok(text)
}
