//! The numbers that bits stand for, how carries go through them, and quotients with their rests.
#![tactic(auto)]

ghost use Rattle.std.specs.Prelude.{◌≡◌, ◌+◌, ◌*◌, ◌^◌, ◌<◌, ℕ, Bool, false, not, List, ◌++◌, length, map, nat_lt};
ghost use Rattle.binary_numbers.specs.Numbers.{number};
ghost use Rattle.binary_numbers.specs.Carries.{added, carry_out, generated, propagated};
ghost use Rattle.binary_numbers.specs.Quotients.{IsQuotient};

/// The number of n bits is below 2^n, and high bits stand for that many times what they are alone.
pub fn bits_stand_for_numbers()
    ensures below { (xs : List Bool) → number xs < 2 ^ length xs }
    ensures joined { (xs ys : List Bool) → number (xs ++ ys) ≡ number xs + 2 ^ length xs * number ys }
{}

/// The bits of a sum, each of which is 1 where an odd number of the two bits and the carry into its position
/// are.
pub fn a_sum_has_its_bits()
    ensures { (xs ys : List Bool) → length xs ≡ length ys → number (added xs ys) ≡ number xs + number ys }
{}

/// The last carry of the sum of the first number's opposite bits and the second number tells which number is
/// less.
pub fn the_last_carry_tells_less()
    ensures { (xs ys : List Bool) → length xs ≡ length ys
        → carry_out false (generated (map not xs) ys) (propagated (map not xs) ys) ≡ nat_lt (number xs) (number ys) }
{}

/// A number that is a multiple of the divisor and a rest below it has that quotient and that rest; by 0 they
/// are 0 and all.
pub fn a_quotient_is_the_only_one()
    ensures { (m by q r : ℕ) → m ≡ q * by + r → (0 < by → r < by) → (by ≡ 0 → q ≡ 0) → IsQuotient m by q r }
{}
