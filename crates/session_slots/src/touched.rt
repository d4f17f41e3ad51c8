//! The wires of a slot.
ghost use Rattle.std.specs.Prelude.{◌≡◌, ℕ, nat_eq, true, false, ◌&&◌, ◌||◌, None};
ghost use Rattle.std.specs.List.{list_any};
ghost use Rattle.circuit_model.specs.Circuits.{is_product};
ghost use Rattle.circuit_model.specs.Netlists.{read_by};
ghost use Rattle.session_slots.specs.Wirings.{is_among, is_named};

use circuit_model::{Gate, Operation};

/// The wires that a slot reads, at most three.
pub type Reads = (Option<u32>, Option<u32>, Option<u32>);

/// The wire that a slot sets, and different ones among which are all that it reads.
#[derive(Clone, Copy)]
pub struct Touched {
    pub sets: Option<u32>,
    pub first: Option<u32>,
    pub second: Option<u32>,
    pub third: Option<u32>,
}

/// The wires in the fields of a gate.
#[inline(always)]
pub(crate) fn touched_by(gate: Gate) -> Touched
    ensures sets { (w : ℕ) → (nat_eq w gate.output || false) ≡ is_named result.sets w }
    ensures fields { (w : ℕ) → (nat_eq w gate.first || nat_eq w gate.second)
        ≡ (is_named result.first w || is_named result.second w) }
    ensures apart { (w : ℕ) → is_named result.first w ≡ true → is_named result.second w ≡ false }
    ensures third { result.third ≡ None }
{
    Touched {
        sets: Some(gate.output),
        first: Some(gate.first),
        second: other_than(gate.first, gate.second),
        third: None,
    }
}

/// This wire that a slot sets, and the different ones among those that it reads.
#[inline(always)]
pub(crate) fn touched_of(sets: Option<u32>, reads: Reads) -> Touched
    ensures sets { result.sets ≡ sets }
    ensures reads { (w : ℕ) → is_among reads.0 reads.1 reads.2 w
        ≡ is_among result.first result.second result.third w }
    ensures second { (w : ℕ) → is_named result.first w ≡ true → is_named result.second w ≡ false }
    ensures third { (w : ℕ) → (is_named result.first w || is_named result.second w) ≡ true
        → is_named result.third w ≡ false }
{
    let (first, other, last) = reads;
    let second = unless_same(first, other);
    let third = unless_same(second, unless_same(first, last));
    Touched {
        sets,
        first,
        second,
        third,
    }
}

// The other wire, if there is one and it is not the first.
#[inline(always)]
fn unless_same(first: Option<u32>, other: Option<u32>) -> Option<u32>
    ensures either { (w : ℕ) → (is_named first w || is_named other w) ≡ (is_named first w || is_named result w) }
    ensures apart { (w : ℕ) → is_named first w ≡ true → is_named result w ≡ false }
    ensures other { (w : ℕ) → is_named result w ≡ true → is_named other w ≡ true }
{
    match (first, other) {
        (Some(one), Some(two)) => other_than(one, two),
        _ => other,
    }
}

// The second wire, if it is another than the first.
#[inline(always)]
fn other_than(first: u32, second: u32) -> Option<u32>
    ensures either { (w : ℕ) → (nat_eq w first || nat_eq w second) ≡ (nat_eq w first || is_named result w) }
    ensures apart { (w : ℕ) → nat_eq w first ≡ true → is_named result w ≡ false }
{
    if second == first { None } else { Some(second) }
}

/// The wires that a gate reads.
#[inline(always)]
pub fn read_wires(gate: Gate) -> (Option<u32>, Option<u32>)
    ensures { (w : ℕ) → list_any (nat_eq w) (read_by gate) ≡ (is_named result.0 w || is_named result.1 w) }
{
    if gate.operation.is_constant() {
        (None, None)
    } else if gate.operation.arity() == 2 {
        (Some(gate.first), Some(gate.second))
    } else {
        (Some(gate.first), None)
    }
}

/// The wire that a gate completes once what others post of it was taken.
#[inline(always)]
pub fn completed(gate: Gate) -> Option<u32>
    ensures { (w : ℕ) → is_named result w ≡ (is_product gate.operation && nat_eq w gate.output) }
{
    if gate.operation.is_product() {
        Some(gate.output)
    } else {
        None
    }
}
