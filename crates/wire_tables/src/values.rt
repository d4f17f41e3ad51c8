//! What is given on the input wires of a session, and the values of all its wires in the clear.
ghost use Rattle.std.specs.Prelude.{◌≡◌, ℕ, ◌+◌, ◌-◌, ◌^◌, ◌<◌, ◌≤◌, ◌++◌, List, [], All, IfOk, OnOk, length, replicate, set, slice_index, slice_index_or};
ghost use Rattle.list_laws.specs.Lists.{listed};
ghost use Rattle.circuit_model.specs.Circuits.{operate, set_at, values};
ghost use Rattle.session_slots.specs.Sessions.{gate, owners};
ghost use Rattle.plan_model.specs.Plans.{session};
ghost use Rattle.plan_model.specs.InputWords.{AreInputs, given, session_words};
ghost use Rattle.wire_tables.specs.HandedOn.{IsHandedOn};
ghost use Rattle.wire_tables.specs.WireTables.{input_list, value_at, value_lists};

use circuit_model::Gate;
use job_plan::{Inputs, Plan};
use job_session::Source;
use mpc_ring::Ring;
use std::alloc::{AllocError, Global};

/// The word that is given on each input wire of session `s`, in the order of the wires; 0 on one that is carried.
pub fn input_list(
    alloc: Global,
    plan: &Plan,
    inputs: &Inputs,
    s: u32,
) -> Result<Vec<u64>, AllocError>
    requires inputs { AreInputs plan.now inputs.now }
    requires session { s < length plan.now.sessions }
    ensures { (tapes : List (List ℕ)) → IfOk result (λ list. list.items
        ≡ input_list (record { plan = plan.now; inputs = inputs.now; tapes = tapes }) s) }
{
    let part = plan.part(s);
    let mut given = vec![in alloc; 0; plan.parties() as usize]?;
    let mut list = Vec::new(alloc);
    for v in 0..part.input_wires() as u32 {
        let word = match part.source(v) {
            Source::Given(party) => next_input(inputs, s, party, &mut given),
            Source::Earlier { .. } => 0,
        };
        list.push(word)?;
    }
    Ok(list)
}

// The next input of a party in session `s`, and one more that it has given.
fn next_input(inputs: &Inputs, s: u32, party: u32, counts: &mut [usize]) -> u64
    requires party { party < length inputs.now }
    requires session { s < length (slice_index_or inputs.now party []) }
    requires count { party < length counts.old }
    requires enough { slice_index counts.old party < length (given inputs.now party s) }
    ensures word { result ≡ slice_index (given inputs.now party s) (slice_index counts.old party) }
    ensures count { counts.new ≡ set counts.old party (slice_index counts.old party + 1) }
{
    let at = counts[party as usize];
    let word = inputs.of(party, s)[at];
    counts[party as usize] = at + 1;
    word
}

/// The value of each wire of each session, session by session; 0 for a wire that is never set.
pub fn value_lists(alloc: Global, plan: &Plan, inputs: &Inputs) -> Result<Vec<Vec<u64>>, AllocError>
    requires inputs { AreInputs plan.now inputs.now }
    ensures { (tapes : List (List ℕ)) → IfOk result (λ lists. session_words lists.items
        ≡ value_lists (record { plan = plan.now; inputs = inputs.now; tapes = tapes })) }
{
    plan.recall();
    let mut lists = Vec::with_capacity(alloc, plan.sessions() as usize)?;
    for s in 0..plan.sessions() {
        lists.push(input_list(alloc, plan, inputs, s)?)?;
    }
    for s in 0..plan.sessions() {
        run_gates(plan, s, &mut lists[s as usize])?;
        hand_on(plan, s, &mut lists);
    }
    Ok(lists)
}

// Makes the values of all wires of session `s` of those of its input wires.
fn run_gates(plan: &Plan, s: u32, list: &mut Vec<u64>) -> Result<(), AllocError>
    requires session { s < length plan.now.sessions }
    requires inputs { length list.old.items ≡ length (owners (session plan.now s)) }
    requires words { All (λ word. word < 2 ^ plan.now.bits) list.old.items }
    ensures { OnOk result (list.new.items ≡ listed (session plan.now s).wires
        (values (2 ^ plan.now.bits) (gate (session plan.now s)) (slice_index list.old.items)
        (length (session plan.now s).gates))) }
{
    let part = plan.part(s);
    let ring = plan.ring();
    pad(part.wires() as usize, list)?;
    for t in 0..part.gates().len() as u32 {
        set_wire(ring, part.gate(t), list);
    }
    Ok(())
}

// Hands the values that later sessions carry of session `s` on to them.
fn hand_on(plan: &Plan, s: u32, lists: &mut [Vec<u64>])
    requires session { s < length plan.now.sessions }
    requires sessions { length lists.old ≡ length plan.now.sessions }
    requires wires { length (slice_index_or (session_words lists.old) s []) ≡ (session plan.now s).wires }
    requires inputs { (u : ℕ) → s < u → u < length plan.now.sessions
        → length (slice_index_or (session_words lists.old) u []) ≡ length (owners (session plan.now u)) }
    ensures sessions { length lists.new ≡ length plan.now.sessions }
    ensures lengths { (u : ℕ) → length (slice_index_or (session_words lists.new) u [])
        ≡ length (slice_index_or (session_words lists.old) u []) }
    ensures handed_on { IsHandedOn plan.now s (value_at (session_words lists.old) s)
        (value_at (session_words lists.old)) (value_at (session_words lists.new)) }
{
    plan.recall();
    let part = plan.part(s);
    for kept in part.kept() {
        let value = lists[s as usize][part.output_wire(kept.output) as usize];
        lists[kept.session as usize][kept.wire as usize] = value;
    }
}

// Puts 0 on all further wires.
fn pad(wires: usize, values: &mut Vec<u64>) -> Result<(), AllocError>
    requires { length values.old.items ≤ wires }
    ensures { OnOk result (values.new.items
        ≡ values.old.items ++ replicate (wires - length values.old.items) 0) }
{
    values.resize(wires, 0)
}

// Sets the wire of a gate to what the gate makes of its wires.
fn set_wire(ring: Ring, gate: Gate, values: &mut [u64])
    requires first { gate.first < length values.old }
    requires second { gate.second < length values.old }
    requires output { gate.output < length values.old }
    requires words { All (λ word. word < 2 ^ ring) values.old }
    ensures words { All (λ word. word < 2 ^ ring) values.new }
    ensures long { length values.new ≡ length values.old }
    ensures values { (v : ℕ) → slice_index values.new v ≡ set_at (slice_index values.old) gate.output
        (operate (2 ^ ring) gate.operation gate.constant (slice_index values.old gate.first)
        (slice_index values.old gate.second)) v }
{
    let first = values[gate.first as usize];
    let second = values[gate.second as usize];
    values[gate.output as usize] = gate.operation.apply(ring, gate.constant, first, second);
}
