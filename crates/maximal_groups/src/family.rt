//! Families of tolerated groups.
ghost use Rattle.std.specs.Prelude.{◌≡◌, ◌≤◌, ℕ, Bool};
ghost use Rattle.maximal_groups.specs.Families.{IsFamily};

use party_set::{Group, MOST_PARTIES};

/// Tells for each group of 1 to 12 parties whether it is tolerated: whether its members may put together what they
/// know, and still learn nothing (Hirt and Maurer: an adversary structure). The group of all parties may be tolerated;
/// then every group is.
pub trait Family {
    /// How many parties there are.
    ghost count: { Self → ℕ };

    /// Whether the group of this mask is tolerated.
    ghost is_tolerated: { Self → ℕ → Bool };

    /// How many parties there are.
    fn parties(&self) -> u32
        ensures is { result ≡ count self.now }
        ensures some { 1 ≤ result }
        ensures few { result ≤ MOST_PARTIES }
        ensures family { IsFamily (count self.now) (is_tolerated self.now) };

    /// Whether the group is tolerated.
    fn tolerated(&self, g: Group) -> bool
        requires { g.parties ≡ count self.now }
        ensures { result ≡ is_tolerated self.now g.mask };
}
