//! The circuit of a sample, gate by gate.
ghost use Rattle.std.specs.Prelude.{◌≡◌, ◌+◌, ◌<◌, ◌≤◌, ◌^◌, IfOk, IfErr, OnOk, take};
ghost use Rattle.circuit_model.specs.declared.fault.CircuitFault.TheVariants.{Memory};
ghost use Rattle.circuit_model.specs.Netlists.{arity};
ghost use Rattle.sample_maker.specs.Samples.{first_operand, second_operand, sample_operation};
ghost use Rattle.sample_maker.specs.Drafts.{first_gates, sample_draft};

use circuit_model::{Builder, Circuit, CircuitFault, Operation};
use job_limits::MOST_GATES;
use mpc_ring::Ring;
use std::alloc::Global;

// The line that a fault would name, if there were one.
const NO_LINE: u64 = 0;

/// The ring of all words.
pub(crate) fn sample_ring() -> Ring
    ensures { result ≡ 32 }
{
    Ring::new(32).unwrap()
}

/// The circuit of the sample with `count` gates, 1 to 65,536.
pub(crate) fn sample_circuit(alloc: Global, count: u32) -> Result<Circuit, CircuitFault>
    requires { (0 < count) × (count ≤ MOST_GATES) }
    ensures is { IfOk result (λ circuit. circuit ≡ first_gates count count) }
    ensures memory { IfErr result (λ fault. fault ≡ Memory) }
{
    let mut builder = start(alloc, count)?;
    for j in 0..count {
        add_gate(&mut builder, count, j)?;
    }
    builder.finish()
}

// The circuit with no gate yet.
fn start(alloc: Global, count: u32) -> Result<Builder, CircuitFault>
    requires { count ≤ MOST_GATES }
    ensures is { IfOk result (λ builder. builder ≡ sample_draft count 0) }
    ensures memory { IfErr result (λ fault. fault ≡ Memory) }
{
    let inputs = vec![in alloc; 2; 2]?;
    let outputs = vec![in alloc; 1; 1]?;
    let gates = u64::from(count);
    Builder::start(
        alloc,
        sample_ring(),
        gates,
        4 + gates,
        inputs,
        outputs,
        [NO_LINE; 3],
    )
}

// Adds gate j.
fn add_gate(builder: &mut Builder, count: u32, j: u32) -> Result<(), CircuitFault>
    requires gate { j < count }
    requires count { count ≤ MOST_GATES }
    requires before { builder.old ≡ sample_draft count j }
    ensures after { OnOk result (builder.new ≡ sample_draft count (j + 1)) }
    ensures memory { IfErr result (λ fault. fault ≡ Memory) }
{
    let operation = operation_of(count, j);
    let both = [first_operand(count, j), second_operand(j)];
    let output = 4 + u64::from(j);
    builder.gate(NO_LINE, operation, operands(operation, &both), &[output])
}

fn operation_of(count: u32, j: u32) -> Operation
    requires { j + count < 2 ^ 32 }
    ensures { result ≡ sample_operation count j }
{
    match (j + count) % 4 {
        0 => Operation::Mul,
        1 => Operation::Add,
        2 => Operation::Sub,
        _ => Operation::Neg,
    }
}

fn first_operand(count: u32, j: u32) -> u64
    ensures { result ≡ first_operand count j }
{
    let j = u64::from(j);
    (7 * j + u64::from(count)) % (4 + j)
}

fn second_operand(j: u32) -> u64
    ensures { result ≡ second_operand j }
{
    let j = u64::from(j);
    (11 * j + 3) % (4 + j)
}

// The wires that the operation takes: a negation takes the first alone.
fn operands(operation: Operation, both: &[u64; 2]) -> &[u64]
    ensures { result.now ≡ take (arity operation) both.now }
{
    &both[..operation.arity()]
}
