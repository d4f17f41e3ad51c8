//! The search for the maximal tolerated groups.
ghost use Rattle.std.specs.Prelude.{◌≡◌, ◌-◌, ◌<◌, ◌≤◌, ◌^◌, ℕ, Bool, true, [], ◌∷◌};
ghost use Rattle.maximal_groups.specs.Families.{is_maximal, maximal_structure, IsClosed, TellsTolerated};
ghost use Rattle.maximal_groups.specs.Found.{Finds};

use crate::family::Family;
use party_set::{Group, Groups, MOST_GROUPS, MOST_PARTIES, group_of_mask};
use std::alloc::{AllocError, AllocFailed, Global};

/// Why no list of the maximal tolerated groups was given.
#[derive(Clone, Copy, Debug, PartialEq, Eq)]
pub enum GroupsFault {
    /// There are more than 64. The search ended at the one of this number, counted from 1.
    TooManyGroups { found: u64 },
    /// There was too little memory.
    Memory,
}

impl<T: Drop> From<AllocFailed<T>> for GroupsFault {
    ghost use Rattle.maximal_groups.specs.declared.find.GroupsFault.TheVariants.{Memory};

    ghost from_gives = { λ _ fault. fault ≡ Memory };

    fn from(_: AllocFailed<T>) -> GroupsFault {
        GroupsFault::Memory
    }
}

/// Whether the group is tolerated and no strictly larger one is. It is enough to look at the groups with one party
/// more, since a part of a tolerated group is tolerated.
fn is_maximal<F: Family>(family: &F, group: Group) -> bool
    requires parties { group.parties ≡ F.count family.now }
    requires mask { group.mask < 2 ^ F.count family.now }
    ensures { result ≡ is_maximal (F.count family.now) (F.is_tolerated family.now) group.mask }
{
    if !family.tolerated(group) {
        return false;
    }
    for p in 0..family.parties() {
        if !group.has(p) && family.tolerated(group.with(p)) {
            return false;
        }
    }
    true
}

/// The maximal tolerated groups, by rising mask: the tolerated groups each of whose strictly larger groups is
/// qualified. A family that has more than 64 of them is refused.
pub fn find_groups<F: Family>(alloc: Global, family: &F) -> Result<Groups, GroupsFault>
    ensures { Finds (maximal_structure (F.count family.now) (F.is_tolerated family.now)) result }
{
    let parties = family.parties();
    let mut groups = Vec::new(alloc);
    for mask in 0..1u32 << parties {
        let group = group_of_mask(mask, parties);
        if is_maximal(family, group) {
            if groups.len() == MOST_GROUPS {
                return Err(GroupsFault::TooManyGroups {
                    found: MOST_GROUPS as u64 + 1,
                });
            }
            groups.push(group)?;
        }
    }
    Ok(Groups::of(parties, groups))
}

/// A group is tolerated exactly where it lies within a maximal tolerated group.
pub fn maximal_groups_tell()
    ensures { (n : ℕ) (tolerated : ℕ → Bool) → n ≤ MOST_PARTIES → IsClosed n tolerated → TellsTolerated n tolerated }
{}

/// Where the group of all parties is tolerated, it is the only maximal group.
pub fn all_parties_alone()
    ensures { (n : ℕ) (tolerated : ℕ → Bool) → tolerated (2 ^ n - 1) ≡ true
        → maximal_structure n tolerated ≡ record { parties = n; groups = (2 ^ n - 1) ∷ [] } }
{}
