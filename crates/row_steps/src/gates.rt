//! Linear gates on rows.
ghost use Rattle.std.specs.Prelude.{◌≡◌, ◌*◌, ◌^◌, ◌<◌, true, false, not, All, slice_index};
ghost use Rattle.circuit_model.specs.Circuits.{is_product};
ghost use Rattle.row_steps.specs.Rows.{HasRows, WiresWithin, FillsRow, gate_on_rows, AllOnRows, IsFirstProduct, FillsRows};

use circuit_model::{Gate, Operation};
use mpc_ring::Ring;
use reshare_step::local_summand;

// Computes a linear gate of this operation, summand by summand.
#[inline(always)]
fn fill_row(ring: Ring, shares: usize, operation: Operation, gate: Gate, table: &mut [u64])
    requires small { All (λ x. x < 2 ^ ring) table.old }
    requires rows { HasRows shares gate table.old }
    ensures small { All (λ x. x < 2 ^ ring) table.new }
    ensures filled { FillsRow (2 ^ ring) shares operation gate table.old table.new }
{
    for i in 0..shares {
        let a = table[gate.first as usize * shares + i];
        let b = table[gate.second as usize * shares + i];
        table[gate.output as usize * shares + i] = local_summand(
            ring,
            operation,
            gate.constant,
            i == 0,
            a,
            b,
        );
    }
}

// The same where there are three summands, as with three parties and the formula `2 of` them. A loop over so few costs
// more than the gate.
#[inline(always)]
fn fill_three(ring: Ring, operation: Operation, gate: Gate, table: &mut [u64])
    requires small { All (λ x. x < 2 ^ ring) table.old }
    requires rows { HasRows 3 gate table.old }
    ensures small { All (λ x. x < 2 ^ ring) table.new }
    ensures filled { FillsRow (2 ^ ring) 3 operation gate table.old table.new }
{
    let constant = gate.constant;
    let a = gate.first as usize * 3;
    let b = gate.second as usize * 3;
    let c = gate.output as usize * 3;
    let first = local_summand(ring, operation, constant, true, table[a], table[b]);
    let second = local_summand(ring, operation, constant, false, table[a + 1], table[b + 1]);
    let third = local_summand(ring, operation, constant, false, table[a + 2], table[b + 2]);
    table[c] = first;
    table[c + 1] = second;
    table[c + 2] = third;
}

// The same for any count of summands.
#[inline(always)]
fn fill(ring: Ring, shares: usize, operation: Operation, gate: Gate, table: &mut [u64])
    requires small { All (λ x. x < 2 ^ ring) table.old }
    requires rows { HasRows shares gate table.old }
    ensures small { All (λ x. x < 2 ^ ring) table.new }
    ensures filled { FillsRow (2 ^ ring) shares operation gate table.old table.new }
{
    if shares == 3 {
        fill_three(ring, operation, gate, table);
    } else {
        fill_row(ring, shares, operation, gate, table);
    }
}

/// A gate, with the rows of wires in their place.
pub fn on_rows(wires: &[u32], gate: Gate) -> Gate
    requires wires { WiresWithin wires.now gate }
    ensures { result ≡ gate_on_rows (slice_index wires.now) gate }
{
    Gate {
        first: wires[gate.first as usize],
        second: wires[gate.second as usize],
        output: wires[gate.output as usize],
        ..gate
    }
}

/// Computes a linear gate on the rows of its wires.
#[inline(always)]
pub fn linear(ring: Ring, shares: usize, gate: Gate, wires: &[u32], table: &mut [u64])
    requires small { All (λ x. x < 2 ^ ring) table.old }
    requires wires { WiresWithin wires.now gate }
    requires rows { HasRows shares (gate_on_rows (slice_index wires.now) gate) table.old }
    ensures small { All (λ x. x < 2 ^ ring) table.new }
    ensures filled { FillsRow (2 ^ ring) shares gate.operation (gate_on_rows (slice_index wires.now) gate)
        table.old table.new }
{
    // Each frequent operation has its own call, in which it is not looked at for each summand.
    match gate.operation {
        Operation::Add => fill(ring, shares, Operation::Add, on_rows(wires, gate), table),
        Operation::Sub => fill(ring, shares, Operation::Sub, on_rows(wires, gate), table),
        Operation::Neg => fill(ring, shares, Operation::Neg, on_rows(wires, gate), table),
        Operation::Xor => fill(ring, shares, Operation::Xor, on_rows(wires, gate), table),
        other => fill_row(ring, shares, other, on_rows(wires, gate), table),
    }
}

// Computes the gate, if it is linear, and answers whether it is. The operation is looked at in one place, here and in
// `linear`, so that one jump tells both what a gate is and whether it is a product.
#[inline(always)]
fn linear_or_not(ring: Ring, shares: usize, gate: Gate, wires: &[u32], table: &mut [u64]) -> bool
    requires small { All (λ x. x < 2 ^ ring) table.old }
    requires wires { WiresWithin wires.now gate }
    requires rows { HasRows shares (gate_on_rows (slice_index wires.now) gate) table.old }
    ensures is { result ≡ not (is_product gate.operation) }
    ensures small { All (λ x. x < 2 ^ ring) table.new }
    ensures filled { result ≡ true → FillsRow (2 ^ ring) shares gate.operation
        (gate_on_rows (slice_index wires.now) gate) table.old table.new }
    ensures product { result ≡ false → table.new ≡ table.old }
{
    match gate.operation {
        Operation::Mul | Operation::And => false,
        _ => {
            linear(ring, shares, gate, wires, table);
            true
        }
    }
}

/// Computes these gates from the first on, until one is a product, and answers how many they were.
#[inline(always)]
pub fn linear_gates(
    ring: Ring,
    shares: usize,
    gates: &[Gate],
    wires: &[u32],
    table: &mut [u64],
) -> usize
    requires small { All (λ x. x < 2 ^ ring) table.old }
    requires gates { AllOnRows shares wires.now gates.now table.old }
    ensures small { All (λ x. x < 2 ^ ring) table.new }
    ensures first { IsFirstProduct gates.now result }
    ensures filled { FillsRows (2 ^ ring) shares wires.now gates.now result table.old table.new }
{
    let mut computed = 0;
    for gate in gates {
        if !linear_or_not(ring, shares, *gate, wires, table) {
            return computed;
        }
        computed += 1;
    }
    computed
}

/// How many linear gates come before the first product of these gates.
#[inline(always)]
pub fn linear_count(gates: &[Gate]) -> usize
    ensures { IsFirstProduct gates.now result }
{
    let mut count = 0;
    for gate in gates {
        if gate.operation.is_product() {
            return count;
        }
        count += 1;
    }
    count
}
