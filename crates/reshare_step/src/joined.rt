//! What a party makes of its summands of a prepared product.
ghost use Rattle.std.specs.Prelude.{◌≡◌, ℕ, ◌^◌, ◌<◌, nat_eq};
ghost use Rattle.secret_sharing.specs.Prepared.{joined_summand};

use mpc_ring::Ring;

/// A summand of a prepared product: `d` is what one factor has more than its mask, `e` what the other has, and `a`,
/// `b` and `c` are summands of both masks and of their product. The product of `d` and `e` stands in the first alone.
#[inline(always)]
pub fn joined_summand(ring: Ring, first: bool, d: u64, e: u64, a: u64, b: u64, c: u64) -> u64
    ensures below { result < 2 ^ ring }
    ensures is { (i : ℕ) → first ≡ nat_eq i 0
        → result ≡ joined_summand (2 ^ ring) d e (λ _. a) (λ _. b) (λ _. c) i }
{
    ring.recall();
    // Modulo 2^64, of which the ring's modulus is a part.
    let sum = c
        .wrapping_add(d.wrapping_mul(b))
        .wrapping_add(e.wrapping_mul(a));
    let both = if first { d.wrapping_mul(e) } else { 0 };
    ring.reduce(sum.wrapping_add(both))
}
