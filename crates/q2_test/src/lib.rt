//! The test whether two groups of an adversary structure together are all parties.
#![tactic(auto)]

ghost use Rattle.std.specs.Prelude.{◌≡◌, ℕ, MatchOption};
ghost use Rattle.party_set.specs.Parties.{IsQ2, Structure};
ghost use Rattle.q2_test.specs.CoveringPairs.{IsFirstCovering, StartsWithAll};

use party_set::Groups;

/// The first two groups, by the first and then the second, that together are all parties; a group counts with itself.
/// Where there are none, the structure meets Q2 (Hirt and Maurer), and the parties can compute products.
pub fn covering_pair(groups: &Groups) -> Option<(u32, u32)>
    ensures { MatchOption result (IsQ2 groups.now) (λ pair. IsFirstCovering groups.now pair.0 pair.1) }
{
    for i in 0..groups.len() {
        for j in i..groups.len() {
            if groups.get(i).union(groups.get(j)).is_all() {
                return Some((i, j));
            }
        }
    }
    None
}

/// Where the first group is of all parties, it covers them with itself: it is the pair, and the structure fails Q2.
pub fn all_parties_cover_alone()
    ensures pair { (s : Structure) (i j : ℕ) → StartsWithAll s → IsFirstCovering s i j
        → (i ≡ 0) × (j ≡ 0) }
    ensures fails { (s : Structure) → StartsWithAll s → ¬ IsQ2 s }
{}
