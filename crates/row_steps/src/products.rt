//! Products on rows: those of masks joined, and those dealt anew summed.
ghost use Rattle.std.specs.Prelude.{◌≡◌, ◌+◌, ◌*◌, ◌%◌, ◌^◌, ◌<◌, ◌≤◌, if◌then◌else◌, All, length, slice_index};
ghost use Rattle.circuit_model.specs.Circuits.{set_at};
ghost use Rattle.secret_sharing.specs.Prepared.{joined_summand};
ghost use Rattle.row_steps.specs.Rows.{row, SameRow, SameRows, HasRows};

use circuit_model::Gate;
use mpc_ring::Ring;
use reshare_step::joined_summand;

/// Computes row `number` of a prepared product, of which the rows of the masks and their product are those of `masks`.
/// Its row may be one of theirs, so that it is computed summand by summand.
pub fn join_row(
    ring: Ring,
    shares: usize,
    excess: (u64, u64),
    masks: Gate,
    table: &mut [u64],
    number: usize,
)
    requires small { All (λ x. x < 2 ^ ring) table.old }
    requires excess { (excess.0 < 2 ^ ring) × (excess.1 < 2 ^ ring) }
    requires masks { HasRows shares masks table.old }
    requires row { (number + 1) * shares ≤ length table.old }
    ensures small { All (λ x. x < 2 ^ ring) table.new }
    ensures rows { SameRows shares (row shares table.new) (set_at (row shares table.old) number
        (joined_summand (2 ^ ring) excess.0 excess.1 (row shares table.old masks.first)
        (row shares table.old masks.second) (row shares table.old masks.output))) }
{
    // With three summands nothing is looked at for each.
    if shares == 3 {
        join_three(ring, excess, masks, table, number);
    } else {
        join_each(ring, shares, excess, masks, table, number);
    }
}

// The same for any count of summands.
fn join_each(
    ring: Ring,
    shares: usize,
    excess: (u64, u64),
    masks: Gate,
    table: &mut [u64],
    number: usize,
)
    requires small { All (λ x. x < 2 ^ ring) table.old }
    requires excess { (excess.0 < 2 ^ ring) × (excess.1 < 2 ^ ring) }
    requires masks { HasRows shares masks table.old }
    requires row { (number + 1) * shares ≤ length table.old }
    ensures small { All (λ x. x < 2 ^ ring) table.new }
    ensures rows { SameRows shares (row shares table.new) (set_at (row shares table.old) number
        (joined_summand (2 ^ ring) excess.0 excess.1 (row shares table.old masks.first)
        (row shares table.old masks.second) (row shares table.old masks.output))) }
{
    let (d, e) = excess;
    for i in 0..shares {
        let a = table[masks.first as usize * shares + i];
        let b = table[masks.second as usize * shares + i];
        let c = table[masks.output as usize * shares + i];
        table[number * shares + i] = joined_summand(ring, i == 0, d, e, a, b, c);
    }
}

// The same where there are three summands.
#[inline(always)]
fn join_three(ring: Ring, excess: (u64, u64), masks: Gate, table: &mut [u64], number: usize)
    requires small { All (λ x. x < 2 ^ ring) table.old }
    requires excess { (excess.0 < 2 ^ ring) × (excess.1 < 2 ^ ring) }
    requires masks { HasRows 3 masks table.old }
    requires row { (number + 1) * 3 ≤ length table.old }
    ensures small { All (λ x. x < 2 ^ ring) table.new }
    ensures rows { SameRows 3 (row 3 table.new) (set_at (row 3 table.old) number
        (joined_summand (2 ^ ring) excess.0 excess.1 (row 3 table.old masks.first)
        (row 3 table.old masks.second) (row 3 table.old masks.output))) }
{
    let a = masks.first as usize * 3;
    let b = masks.second as usize * 3;
    let c = masks.output as usize * 3;
    let (d, e) = excess;
    let first = joined_summand(ring, true, d, e, table[a], table[b], table[c]);
    let second = joined_summand(ring, false, d, e, table[a + 1], table[b + 1], table[c + 1]);
    let third = joined_summand(ring, false, d, e, table[a + 2], table[b + 2], table[c + 2]);
    let at = number * 3;
    table[at] = first;
    table[at + 1] = second;
    table[at + 2] = third;
}

/// Puts the sums into row `number`, beside what was dealt there, if it was, and begins the sums anew.
#[inline(always)]
pub fn sum_row(
    ring: Ring,
    shares: usize,
    dealt: bool,
    sums: &mut [u64],
    table: &mut [u64],
    number: usize,
)
    requires small { All (λ x. x < 2 ^ ring) table.old }
    requires small_sums { All (λ x. x < 2 ^ ring) sums.old }
    requires sums { length sums.old ≡ shares }
    requires row { (number + 1) * shares ≤ length table.old }
    ensures small { All (λ x. x < 2 ^ ring) table.new }
    ensures small_sums { All (λ x. x < 2 ^ ring) sums.new }
    ensures rows { SameRows shares (row shares table.new) (set_at (row shares table.old) number
        (λ i. ((if dealt then row shares table.old number i else 0) + slice_index sums.old i) % 2 ^ ring)) }
    ensures sums { SameRow shares (slice_index sums.new) (λ i. 0) }
{
    // With three summands nothing is looked at for each.
    if shares != 3 {
        sum_each(ring, shares, dealt, sums, table, number);
    } else if dealt {
        sum_three(ring, true, sums, table, number);
    } else {
        sum_three(ring, false, sums, table, number);
    }
}

// The same, summand by summand.
fn sum_each(
    ring: Ring,
    shares: usize,
    dealt: bool,
    sums: &mut [u64],
    table: &mut [u64],
    number: usize,
)
    requires small { All (λ x. x < 2 ^ ring) table.old }
    requires small_sums { All (λ x. x < 2 ^ ring) sums.old }
    requires sums { length sums.old ≡ shares }
    requires row { (number + 1) * shares ≤ length table.old }
    ensures small { All (λ x. x < 2 ^ ring) table.new }
    ensures small_sums { All (λ x. x < 2 ^ ring) sums.new }
    ensures rows { SameRows shares (row shares table.new) (set_at (row shares table.old) number
        (λ i. ((if dealt then row shares table.old number i else 0) + slice_index sums.old i) % 2 ^ ring)) }
    ensures sums { SameRow shares (slice_index sums.new) (λ i. 0) }
{
    for i in 0..shares {
        let at = number * shares + i;
        table[at] = summed(ring, dealt, table[at], sums[i]);
        sums[i] = ring.zero();
    }
}

// The same where there are three summands.
#[inline(always)]
fn sum_three(ring: Ring, dealt: bool, sums: &mut [u64], table: &mut [u64], number: usize)
    requires small { All (λ x. x < 2 ^ ring) table.old }
    requires small_sums { All (λ x. x < 2 ^ ring) sums.old }
    requires sums { length sums.old ≡ 3 }
    requires row { (number + 1) * 3 ≤ length table.old }
    ensures small { All (λ x. x < 2 ^ ring) table.new }
    ensures small_sums { All (λ x. x < 2 ^ ring) sums.new }
    ensures rows { SameRows 3 (row 3 table.new) (set_at (row 3 table.old) number
        (λ i. ((if dealt then row 3 table.old number i else 0) + slice_index sums.old i) % 2 ^ ring)) }
    ensures sums { SameRow 3 (slice_index sums.new) (λ i. 0) }
{
    let at = number * 3;
    let first = summed(ring, dealt, table[at], sums[0]);
    let second = summed(ring, dealt, table[at + 1], sums[1]);
    let third = summed(ring, dealt, table[at + 2], sums[2]);
    table[at] = first;
    table[at + 1] = second;
    table[at + 2] = third;
    sums[0] = ring.zero();
    sums[1] = ring.zero();
    sums[2] = ring.zero();
}

// A summand of a product: what was taken joins what the party dealt, if it did.
#[inline(always)]
fn summed(ring: Ring, dealt: bool, before: u64, taken: u64) -> u64
    requires words { (before < 2 ^ ring) × (taken < 2 ^ ring) }
    ensures below { result < 2 ^ ring }
    ensures is { result ≡ ((if dealt then before else 0) + taken) % 2 ^ ring }
{
    if dealt {
        ring.add(before, taken)
    } else {
        taken
    }
}
