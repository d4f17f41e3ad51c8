//! The three header lines.
ghost use Rattle.std.specs.Prelude.{◌≡◌};
ghost use Rattle.circuit_file.specs.Answers.{Shows};
ghost use Rattle.circuit_file.specs.Header.{counts_in, widths_in};

use crate::tokens::{after, all_numbers, is_number, number_in, numbers};
use circuit_model::{CircuitFault, are_large, check, exceeds};
use gate_lines::Line;
use job_limits::MOST_VALUES;
use std::alloc::Global;

/// How many gates and wires a circuit has.
#[derive(Clone, Copy)]
pub(crate) struct Counts {
    pub gates: u64,
    pub wires: u64,
}

/// The counts of line one, or its first fault.
#[tactic(auto, unfolding(crate::specs::Header::count_checks, crate::specs::Header::counts_in))]
pub(crate) fn read_counts(row: &Line<'_>) -> Result<Counts, CircuitFault>
    ensures { result ≡ counts_in row.now }
{
    let line = row.number();
    let found = row.count();
    check(found < 2, CircuitFault::ShortLine { line })?;
    check(found > 2, CircuitFault::LongLine { line })?;
    check(
        !all_numbers(row.tokens(), 2),
        CircuitFault::BadNumber { line },
    )?;
    let gates = number_in(row.token(0));
    let wires = number_in(row.token(1));
    check(are_large(gates, wires), CircuitFault::TooLarge { line })?;
    Ok(Counts { gates, wires })
}

/// The widths of the values that line two or three announces, or its first fault.
#[tactic(auto, unfolding(crate::specs::Header::width_checks, crate::specs::Header::widths_in))]
pub(crate) fn read_widths(
    alloc: Global,
    row: &Line<'_>,
    wires: u64,
) -> Result<Vec<u64>, CircuitFault>
    ensures { Shows (λ v. v.items) result (widths_in wires row.now) }
{
    let line = row.number();
    let first = row.token(0);
    check(!is_number(first), CircuitFault::BadNumber { line })?;
    let count = number_in(first);
    check(count > MOST_VALUES, CircuitFault::TooLarge { line })?;
    let found = row.count();
    check(found < count + 1, CircuitFault::ShortLine { line })?;
    check(found > count + 1, CircuitFault::LongLine { line })?;
    let count = count as usize;
    check(
        !all_numbers(after(row.tokens(), 1), count),
        CircuitFault::BadNumber { line },
    )?;
    let widths = numbers(alloc, after(row.tokens(), 1), count)?;
    check(exceeds(&widths, wires), CircuitFault::HeaderWidths { line })?;
    Ok(widths)
}
