//! Opening a value: its summands are added up (Maurer 2006).
#![tactic(auto)]

ghost use Rattle.std.specs.Prelude.{◌≡◌, ◌%◌, ◌^◌, ◌<◌, All, sum};

use mpc_ring::Ring;

/// The value whose summands these are.
pub fn open_sum(ring: Ring, words: &[u64]) -> u64
    requires words { All (λ word. word < 2 ^ ring) words.now }
    ensures is { result ≡ sum words.now % 2 ^ ring }
    ensures below { result < 2 ^ ring }
{
    ring.sum(words)
}
