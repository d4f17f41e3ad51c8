//! The summand that is hidden from a group.
ghost use Rattle.std.specs.Prelude.{◌≡◌, ◌<◌, SomeIff, length};
ghost use Rattle.std.specs.List.{position_or_len};
ghost use Rattle.party_set.specs.Parties.{within};

use party_set::{Group, Groups};

/// The first of the maximal groups that has all parties of this one, and so the summand that no
/// member holds. None exactly where there is none.
pub(crate) fn hidden_summand(groups: &Groups, group: Group) -> Option<u32>
    requires { group.parties ≡ groups.now.parties }
    ensures { SomeIff result
        (position_or_len (within groups.now.parties group.mask) groups.now.groups
        < length groups.now.groups)
        (position_or_len (within groups.now.parties group.mask) groups.now.groups) }
{
    for i in 0..groups.len() {
        if group.within(groups.get(i)) {
            return Some(i);
        }
    }
    None
}
