//! Openings of rows.
ghost use Rattle.std.specs.Prelude.{◌≡◌, ◌+◌, ◌*◌, ◌%◌, ◌^◌, ◌<◌, ◌≤◌, All, length, slice_index};
ghost use Rattle.list_laws.specs.Lists.{total};
ghost use Rattle.row_steps.specs.Rows.{row, SameRow, CanOpen, shares_of, held_or, excess_row};

use mpc_ring::Ring;
use share_layout::Layout;

/// By what a party opens rows: the layout tells which of their summands it holds, and the table has those.
#[derive(Clone, Copy)]
pub struct Opener<'a> {
    pub ring: Ring,
    pub layout: &'a Layout,
    pub party: u32,
    pub table: &'a [u64],
}

impl Opener<'_> {
    /// The value of row `number` as the party opens it: the sum of the summands that it holds and of those that it got.
    /// The sums begin anew.
    #[inline(always)]
    pub fn open_row(&self, number: usize, sums: &mut [u64]) -> u64
        requires opener { CanOpen self.now }
        requires row { (number + 1) * shares_of self.now ≤ length self.now.table.now }
        requires small_sums { All (λ x. x < 2 ^ self.now.ring) sums.old }
        requires sums { length sums.old ≡ shares_of self.now }
        ensures below { result < 2 ^ self.now.ring }
        ensures value { result ≡ total (shares_of self.now)
            (held_or self.now (row (shares_of self.now) self.now.table.now number) (slice_index sums.old))
            % 2 ^ self.now.ring }
        ensures small_sums { All (λ x. x < 2 ^ self.now.ring) sums.new }
        ensures sums { SameRow (length sums.old) (slice_index sums.new) (λ i. 0) }
    {
        self.put_held(number, sums);
        open_sums(self.ring, sums)
    }

    /// The value of what row `x` has more than row `a`, as the party opens it. The sums begin anew.
    #[inline(always)]
    pub fn open_masked(&self, x: usize, a: usize, sums: &mut [u64]) -> u64
        requires opener { CanOpen self.now }
        requires first { (x + 1) * shares_of self.now ≤ length self.now.table.now }
        requires second { (a + 1) * shares_of self.now ≤ length self.now.table.now }
        requires small_sums { All (λ x. x < 2 ^ self.now.ring) sums.old }
        requires sums { length sums.old ≡ shares_of self.now }
        ensures below { result < 2 ^ self.now.ring }
        ensures value { result ≡ total (shares_of self.now)
            (held_or self.now (excess_row self.now x a) (slice_index sums.old)) % 2 ^ self.now.ring }
        ensures small_sums { All (λ x. x < 2 ^ self.now.ring) sums.new }
        ensures sums { SameRow (length sums.old) (slice_index sums.new) (λ i. 0) }
    {
        // With three summands nothing is looked at for each.
        if self.layout.shares() == 3 {
            return self.open_three(x, a, sums);
        }
        self.put_masked(x, a, sums);
        open_sums(self.ring, sums)
    }

    // The same where there are three summands.
    #[inline(always)]
    fn open_three(&self, x: usize, a: usize, sums: &mut [u64]) -> u64
        requires opener { CanOpen self.now }
        requires three { shares_of self.now ≡ 3 }
        requires first { (x + 1) * shares_of self.now ≤ length self.now.table.now }
        requires second { (a + 1) * shares_of self.now ≤ length self.now.table.now }
        requires small_sums { All (λ x. x < 2 ^ self.now.ring) sums.old }
        requires sums { length sums.old ≡ shares_of self.now }
        ensures below { result < 2 ^ self.now.ring }
        ensures value { result ≡ total (shares_of self.now)
            (held_or self.now (excess_row self.now x a) (slice_index sums.old)) % 2 ^ self.now.ring }
        ensures small_sums { All (λ x. x < 2 ^ self.now.ring) sums.new }
        ensures sums { SameRow (length sums.old) (slice_index sums.new) (λ i. 0) }
    {
        let first = self.excess_or(x, a, 0, sums[0]);
        let second = self.excess_or(x, a, 1, sums[1]);
        let third = self.excess_or(x, a, 2, sums[2]);
        sums[0] = self.ring.zero();
        sums[1] = self.ring.zero();
        sums[2] = self.ring.zero();
        let both = self.ring.add(first, second);
        self.ring.add(both, third)
    }

    // Puts the summands of row `number` that the party holds beside those that it got.
    #[inline(always)]
    fn put_held(&self, number: usize, sums: &mut [u64])
        requires party { self.now.party < self.now.layout.now.parties }
        requires row { (number + 1) * shares_of self.now ≤ length self.now.table.now }
        requires sums { length sums.old ≡ shares_of self.now }
        ensures { SameRow (shares_of self.now) (slice_index sums.new)
            (held_or self.now (row (shares_of self.now) self.now.table.now number) (slice_index sums.old)) }
    {
        let shares = self.layout.shares();
        for i in 0..shares {
            if self.layout.holds(self.party, i) {
                sums[i as usize] = self.table[number * shares as usize + i as usize];
            }
        }
    }

    // Puts what the summands of row `x` that the party holds have more than those of row `a` beside those that it got.
    #[inline(always)]
    fn put_masked(&self, x: usize, a: usize, sums: &mut [u64])
        requires opener { CanOpen self.now }
        requires first { (x + 1) * shares_of self.now ≤ length self.now.table.now }
        requires second { (a + 1) * shares_of self.now ≤ length self.now.table.now }
        requires small_sums { All (λ x. x < 2 ^ self.now.ring) sums.old }
        requires sums { length sums.old ≡ shares_of self.now }
        ensures small_sums { All (λ x. x < 2 ^ self.now.ring) sums.new }
        ensures sums { SameRow (shares_of self.now) (slice_index sums.new)
            (held_or self.now (excess_row self.now x a) (slice_index sums.old)) }
    {
        for i in 0..self.layout.shares() {
            sums[i as usize] = self.excess_or(x, a, i, sums[i as usize]);
        }
    }

    // What summand `i` of row `x` has more than that of row `a`, if the party holds it, and else this word.
    #[inline(always)]
    fn excess_or(&self, x: usize, a: usize, i: u32, other: u64) -> u64
        requires opener { CanOpen self.now }
        requires summand { i < shares_of self.now }
        requires first { (x + 1) * shares_of self.now ≤ length self.now.table.now }
        requires second { (a + 1) * shares_of self.now ≤ length self.now.table.now }
        requires other { other < 2 ^ self.now.ring }
        ensures below { result < 2 ^ self.now.ring }
        ensures is { result ≡ held_or self.now (excess_row self.now x a) (λ k. other) i }
    {
        if !self.layout.holds(self.party, i) {
            return other;
        }
        let shares = self.layout.shares() as usize;
        let word = self.table[x * shares + i as usize];
        let mask = self.table[a * shares + i as usize];
        self.ring.sub(word, mask)
    }
}

// The value whose summands these are. The sums begin anew.
fn open_sums(ring: Ring, sums: &mut [u64]) -> u64
    requires small_sums { All (λ x. x < 2 ^ ring) sums.old }
    ensures below { result < 2 ^ ring }
    ensures value { result ≡ total (length sums.old) (slice_index sums.old) % 2 ^ ring }
    ensures small_sums { All (λ x. x < 2 ^ ring) sums.new }
    ensures sums { SameRow (length sums.old) (slice_index sums.new) (λ i. 0) }
{
    let sum = open_step::open_sum(ring, sums);
    clear(ring, sums);
    sum
}

// Begins the sums anew.
fn clear(ring: Ring, sums: &mut [u64])
    ensures small_sums { All (λ x. x < 2 ^ ring) sums.new }
    ensures sums { SameRow (length sums.old) (slice_index sums.new) (λ i. 0) }
{
    let zero = ring.zero();
    for sum in sums.iter_mut() {
        *sum = zero;
    }
}
