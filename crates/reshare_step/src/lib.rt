//! Gates on summands. A linear one each party computes of its summands alone. At a product each party multiplies the
//! pairs of summands that are its duty, deals the sum of those products anew, and adds up what was dealt to it
//! (Maurer 2006). A prepared product it joins of what was dealt and opened before (Beaver 1991).
#![tactic(auto)]

ghost use Rattle.std.specs.Prelude.{◌≡◌, ℕ, ◌+◌, ◌%◌, ◌^◌, ◌<◌, All, length, slice_index};
ghost use Rattle.circuit_model.specs.Circuits.{set_at};
ghost use Rattle.secret_sharing.specs.Schemes.{own_product};
ghost use Rattle.secret_sharing.specs.Duties.{scheme_of};

mod joined;
mod local;

pub use joined::joined_summand;
pub use local::local_summand;
use mpc_ring::Ring;
use product_duty::Duty;

/// The sum of the products that are party `p`'s duty, for the summands `x` of one value and `y` of another. Of summands
/// that `p` doesn't hold nothing is read.
pub fn own_products(ring: Ring, duty: &Duty, p: u32, x: &[u64], y: &[u64]) -> u64
    requires party { p < duty.now.parties }
    requires first { length x.now ≡ length duty.now.groups }
    requires second { length y.now ≡ length duty.now.groups }
    ensures is { result ≡ own_product (scheme_of ring duty.now) p (slice_index x.now) (slice_index y.now) }
    ensures below { result < 2 ^ ring }
{
    ring.recall();
    // Modulo 2^64, of which the ring's modulus is a part.
    let mut sum: u64 = 0;
    for (i, j) in duty.pairs(p) {
        sum = sum.wrapping_add(x[i as usize].wrapping_mul(y[j as usize]));
    }
    ring.reduce(sum)
}

/// Adds a word that was dealt to the sum of its share.
pub fn add_word(ring: Ring, into: &mut [u64], share: u32, word: u64)
    requires share { share < length into.old }
    requires words { All (λ word. word < 2 ^ ring) into.old }
    requires word { word < 2 ^ ring }
    ensures sums { (i : ℕ) → slice_index into.new i
        ≡ set_at (slice_index into.old) share ((slice_index into.old share + word) % 2 ^ ring) i }
    ensures below { All (λ word. word < 2 ^ ring) into.new }
{
    let sum = &mut into[share as usize];
    *sum = ring.add(*sum, word);
}
