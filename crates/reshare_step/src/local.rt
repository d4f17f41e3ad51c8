//! What a gate that each party computes alone makes of a summand.
ghost use Rattle.std.specs.Prelude.{◌≡◌, ℕ, ◌^◌, ◌<◌, nat_eq};
ghost use Rattle.secret_sharing.specs.Schemes.{local};

use circuit_model::Operation;
use mpc_ring::Ring;

/// What a linear operation with this constant makes of a summand of its wires: a constant stands in the first alone.
#[inline(always)]
pub fn local_summand(
    ring: Ring,
    operation: Operation,
    constant: u64,
    first: bool,
    a: u64,
    b: u64,
) -> u64
    requires words { (a < 2 ^ ring) × (b < 2 ^ ring) }
    ensures below { result < 2 ^ ring }
    ensures is { (i : ℕ) → first ≡ nat_eq i 0 → result ≡ local (2 ^ ring) operation constant i a b }
{
    if first {
        return operation.apply(ring, constant, a, b);
    }
    match operation {
        Operation::Inv => a,
        Operation::Eq => ring.zero(),
        _ => operation.apply(ring, constant, a, b),
    }
}
