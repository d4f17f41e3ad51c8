//! Reading a whole file.
ghost use Rattle.std.specs.Prelude.{◌≡◌, ◌≤◌, ◌<◌, ◌&&◌, ◌==◌, not, [], None, Ok, Err, nat_lt, length, true, false, pos, if◌then◌else◌, MatchResult};
ghost use Rattle.std.specs.Str.Lossy.{utf8_valid_len};
ghost use Rattle.circuit_model.specs.Checks.{Gives};
ghost use Rattle.circuit_model.specs.declared.fault.CircuitFault.TheVariants.{NotUtf8, WrongRing};
ghost use Rattle.circuit_file.specs.CircuitFiles.{next_row, is_bristol, lines_in, circuit_in};
ghost use Rattle.circuit_file.specs.Steps.{Begins, AddsNext, AddsAll};

use crate::gate_line::{add_gate, read_gate};
use crate::header::{read_counts, read_widths};
use crate::layout::is_bristol;
use crate::scan::scan_gate;
use circuit_model::{Builder, Circuit, CircuitFault, CircuitLayout};
use gate_lines::{Line, Lines};
use job_limits::MOST_GATES;
use mpc_ring::Ring;
use std::alloc::Global;

/// The next line with tokens, where `seen` came before.
fn next_row<'a>(lines: &mut Lines<'a>, seen: u64) -> Result<Line<'a>, CircuitFault>
    ensures { MatchResult result (λ row. next_row seen lines.old ≡ Ok (row, lines.new))
        (λ fault. next_row seen lines.old ≡ Err fault) }
{
    match lines.next_line() {
        Some(row) => Ok(row),
        None => Err(CircuitFault::FewLines { found: seen }),
    }
}

/// How many gates there are to come, and the circuit without them, from the three header lines.
fn read_header(
    alloc: Global,
    lines: &mut Lines<'_>,
    ring: Ring,
) -> Result<(u64, Builder), CircuitFault>
    ensures { Begins ring lines.old result lines.new }
{
    let one = next_row(lines, 0)?;
    let counts = read_counts(&one)?;
    let two = next_row(lines, 1)?;
    let inputs = read_widths(alloc, &two, counts.wires)?;
    let three = next_row(lines, 2)?;
    let outputs = read_widths(alloc, &three, counts.wires)?;
    let numbers = [one.number(), two.number(), three.number()];
    let builder = Builder::start(
        alloc,
        ring,
        counts.gates,
        counts.wires,
        inputs,
        outputs,
        numbers,
    )?;
    Ok((counts.gates, builder))
}

/// Adds the gate of the next line, or finds the first fault there, where `seen` lines came before.
fn next_gate(
    lines: &mut Lines<'_>,
    seen: u64,
    layout: CircuitLayout,
    builder: &mut Builder,
) -> Result<(), CircuitFault>
    requires room { length builder.old.circuit.gates < builder.old.announced }
    requires going { builder.old.refused ≡ None }
    ensures { AddsNext layout seen lines.old builder.old result lines.new builder.new }
{
    match scan_gate(lines, layout) {
        Some(parsed) => add_gate(&parsed, builder),
        None => other_gate(lines, seen, layout, builder),
    }
}

/// The same, token by token, for a line of any form.
#[cold]
#[inline(never)]
fn other_gate(
    lines: &mut Lines<'_>,
    seen: u64,
    layout: CircuitLayout,
    builder: &mut Builder,
) -> Result<(), CircuitFault>
    requires room { length builder.old.circuit.gates < builder.old.announced }
    requires going { builder.old.refused ≡ None }
    ensures { AddsNext layout seen lines.old builder.old result lines.new builder.new }
{
    let row = next_row(lines, seen)?;
    let parsed = read_gate(&row, layout)?;
    add_gate(&parsed, builder)
}

/// Adds the gates of `gates` lines.
fn read_gates(
    lines: &mut Lines<'_>,
    layout: CircuitLayout,
    gates: u64,
    builder: &mut Builder,
) -> Result<(), CircuitFault>
    requires few { gates ≤ MOST_GATES }
    requires announced { builder.old.announced ≡ gates }
    requires first { builder.old.circuit.gates ≡ [] }
    requires going { builder.old.refused ≡ None }
    ensures { AddsAll layout gates lines.old builder.old result lines.new builder.new }
{
    for at in 0..gates {
        next_gate(lines, at + 3, layout, builder)?;
    }
    Ok(())
}

/// The circuit that lines stand for, or their first fault.
fn read_lines(
    alloc: Global,
    mut lines: Lines<'_>,
    layout: CircuitLayout,
    ring: Ring,
) -> Result<Circuit, CircuitFault>
    ensures { Gives result (lines_in layout ring lines.entry) }
{
    let (gates, mut builder) = read_header(alloc, &mut lines, ring)?;
    read_gates(&mut lines, layout, gates, &mut builder)?;
    match lines.next_line() {
        Some(row) => Err(CircuitFault::ExtraLine { line: row.number() }),
        None => builder.finish(),
    }
}

/// The text that bytes are, or where they stop being one.
fn read_text(bytes: &[u8]) -> Result<&str, CircuitFault>
    ensures text { MatchResult result (λ text. text.now ≡ bytes.now)
        (λ fault. fault ≡ NotUtf8 (utf8_valid_len bytes.now)) }
    ensures cause { MatchResult result (λ text. nat_lt (utf8_valid_len bytes.now) (length bytes.now) ≡ false)
        (λ fault. nat_lt (utf8_valid_len bytes.now) (length bytes.now) ≡ true) }
{
    match std::str::from_utf8(bytes) {
        Ok(text) => Ok(text),
        Err(error) => Err(CircuitFault::NotUtf8 {
            at: error.valid_up_to() as u64,
        }),
    }
}

/// Boolean gates are over words of one bit.
fn check_ring(layout: CircuitLayout, ring: Ring) -> Result<(), CircuitFault>
    ensures { result ≡ (if is_bristol layout && not (ring == 1) then Err (WrongRing (pos ring)) else Ok tt) }
{
    let bits = ring.bits();
    if is_bristol(layout) && bits != 1 {
        return Err(CircuitFault::WrongRing {
            bits: i64::from(bits),
        });
    }
    Ok(())
}

/// The circuit that a file in this layout stands for over a ring, or the file's first fault. It takes time linear in
/// the length of the file, and memory for no more than the file has.
pub fn read(
    alloc: Global,
    bytes: &[u8],
    layout: CircuitLayout,
    ring: Ring,
) -> Result<Circuit, CircuitFault>
    ensures { Gives result (circuit_in layout ring bytes.now) }
{
    check_ring(layout, ring)?;
    match read_text(bytes) {
        Err(fault) => Err(fault),
        Ok(text) => read_lines(alloc, Lines::new(text), layout, ring),
    }
}
