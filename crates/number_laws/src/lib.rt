//! What gates of numbers make, and what they cost: the wires of a result carry the bits of the right number,
//! gates read only wires before them, and there are few products, on short paths.
#![tactic(auto)]

ghost use Rattle.std.specs.Prelude.{◌≡◌, ◌+◌, ◌^◌, ◌≤◌, ℕ, Bool, List, length, max};
ghost use Rattle.job_limits.specs.declared.limits.TheConstants.{MOST_GATES};
ghost use Rattle.circuit_model.specs.declared.gate.Operation.{Operation};
ghost use Rattle.number_gates.specs.declared.wire.Wire.{Wire};
ghost use Rattle.number_gates.specs.declared.wire.Bit.{Bit};
ghost use Rattle.number_gates.specs.Steps.{Steps, Kept, Runs};
ghost use Rattle.number_laws.specs.Making.{Gives, AreSet, AreKept};
ghost use Rattle.number_laws.specs.Values.{number_on, IsMade, Computes};
ghost use Rattle.number_laws.specs.Reading.{AreOpen, IsBelow, Reads, FitFrom};
ghost use Rattle.number_laws.specs.Costs.{AtMost, products};
ghost use Rattle.number_laws.specs.Depths.{AreWithin, IsNoDeeper, Deepens};
ghost use Rattle.number_laws.specs.Laws.{MakesBits, AreNumbers, HaveLengths, AreReading, AreFree, AreFew, AreShallow, Cost32};

/// An operation of a circuit over words of one bit makes of bits what it makes of their words.
pub fn operations_make_bits()
    ensures { (o : Operation) → MakesBits o }
{}

/// Gates compute with the numbers that the bits on wires stand for: comparisons, choices, sums, differences (0
/// where the second number is the larger), products, quotients and rests.
pub fn gates_compute_with_numbers()
    ensures { (on : Wire → Bool) (a b : List Bit) → AreNumbers on a b }
{}

/// A sum has one bit more than the wider number, a product as many as both, a quotient and a rest as many as
/// the first number, and a choice and a difference as many as the wider number.
pub fn results_have_lengths()
    ensures { (a b : List Bit) → HaveLengths a b }
{}

/// Gates of two numbers read only wires that carry them and wires of gates before, whatever m inputs and g
/// gates there are.
pub fn gates_read_wires_before()
    ensures { (m g : ℕ) (a b : List Bit) → AreOpen (IsBelow m g) a → AreOpen (IsBelow m g) b
        → AreReading (IsBelow m g) a b }
{}

/// What is linear costs no product, and what a known bit is joined with costs none.
pub fn known_bits_are_free()
    ensures { (a b : Bit) → AreFree a b }
{}

/// Of two numbers of at most 2^k bits, the wider with w: a comparison has at most 3 w - 2 products, a sum w (k
/// + 1), a difference w (k + 2), a choice w, and a quotient with its rest w (k + 2) for each bit of the first
/// number, and a few.
pub fn gates_are_few()
    ensures { (a b : List Bit) (w k : ℕ) → w ≡ max (length a) (length b) → w ≤ 2 ^ k → AreFew a b w k }
{}

/// Of two numbers of at most 2^k bits, on wires of depth d at most: a comparison or a sum is at most k + 1
/// deeper, a difference k + 2, a choice 1, a product 3 k + 2, and a quotient with its rest k + 1 for each bit
/// of the first number, and 1.
pub fn gates_are_shallow()
    ensures { (depth : Wire → ℕ) (a b : List Bit) (d w k : ℕ) → w ≡ max (length a) (length b) → w ≤ 2 ^ k
        → AreWithin depth d a → AreWithin depth d b → AreShallow depth a b d k }
{}

/// The products and depths for two numbers of at most 32 bits.
pub fn gates_of_32_bits()
    ensures { (depth : Wire → ℕ) (a b : List Bit) → length a ≤ 32 → length b ≤ 32 → AreWithin depth 0 a
        → AreWithin depth 0 b → Cost32 depth a b }
{}

/// What is given whatever wires there are is given by each run of the steps.
pub fn kept_results_are_as_given()
    ensures { (n : ℕ) (steps : Steps (List Bit)) (old : Kept) (result : List Bit) (new : Kept)
        → Gives steps (λ c. length c ≡ n) → Runs steps old result new → length result ≡ n }
{}

/// Where a list of bits was made whose number is n in all cases, it is so on the wires of the gates that are
/// kept, and the wires before have the bits that they had.
pub fn kept_gates_make_the_number()
    ensures { (on : Wire → Bool) (steps : Steps (List Bit)) (n : ℕ) (old : Kept) (result : List Bit) (new : Kept)
        → Computes on steps (λ c. number_on on c ≡ n) → Runs steps old result new → length old.drafted ≡ old.gates
        → new.gates ≤ MOST_GATES → AreSet (IsMade on) new.drafted
        → AreKept (IsMade on) old result (λ c. number_on on c ≡ n) }
{}

/// Where the result of steps is at most as deep as d in all cases, it is so by the depths of the gates that are
/// kept.
pub fn kept_gates_are_shallow()
    ensures { (depth : Wire → ℕ) (steps : Steps (List Bit)) (d : ℕ) (old : Kept) (result : List Bit) (new : Kept)
        → Deepens depth steps (AreWithin depth d) → Runs steps old result new → length old.drafted ≡ old.gates
        → new.gates ≤ MOST_GATES → AreSet (IsNoDeeper depth) new.drafted
        → AreKept (IsNoDeeper depth) old result (AreWithin depth d) }
{}

/// Steps of at most n products add at most n to the gates that are kept.
pub fn kept_products_are_few()
    ensures { (n : ℕ) (steps : Steps (List Bit)) (old : Kept) (result : List Bit) (new : Kept)
        → AtMost n steps → Runs steps old result new → products new.drafted ≤ products old.drafted + n }
{}

/// Where each gate that is kept reads wires before it, and the steps read such wires wherever they are run, it
/// is so of the gates after them, and the result is on such wires.
pub fn kept_gates_read_wires_before()
    ensures { (m : ℕ) (steps : Steps (List Bit)) (old : Kept) (result : List Bit) (new : Kept)
        → ((g : ℕ) → old.gates ≤ g → Reads (IsBelow m g) steps (AreOpen (IsBelow m g))) → Runs steps old result new
        → length old.drafted ≡ old.gates → new.gates ≤ MOST_GATES → FitFrom m 0 old.drafted
        → FitFrom m 0 new.drafted × AreOpen (IsBelow m new.gates) result }
{}
