//! Groups as masks: bit p is 1 where party p is in the group.
ghost use Rattle.std.specs.Prelude.{◌≡◌, ◌<◌, ◌≤◌, ◌^◌};
ghost use Rattle.party_set.specs.Parties.{has_party, party_mask, with_party};

use crate::group::Group;
use crate::limits::MOST_PARTIES;

/// Whether party `p` is in the group of this mask.
pub fn has_party(mask: u32, p: u32) -> bool
    requires { p < 32 }
    ensures { result ≡ has_party mask p }
{
    mask >> p & 1 == 1
}

/// The mask of party `p` alone.
pub fn party_mask(p: u32) -> u32
    requires { p < 32 }
    ensures { result ≡ party_mask p }
{
    1 << p
}

/// The mask with party `p` too.
pub fn with_party(mask: u32, p: u32) -> u32
    requires { p < 32 }
    ensures { result ≡ with_party mask p }
{
    mask | 1 << p
}

/// The group of this mask, each bit of which is a party's.
pub fn group_of_mask(mask: u32, parties: u32) -> Group
    requires parties { (1 ≤ parties) × (parties ≤ MOST_PARTIES) }
    requires mask { mask < 2 ^ parties }
    ensures { result ≡ record { parties = parties; mask = mask } }
{
    Group::of_mask(mask, parties).unwrap_or(Group::empty(parties))
}
