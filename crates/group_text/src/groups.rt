//! The group that a text names.
ghost use Rattle.std.specs.Prelude.{◌≡◌, ◌<◌, ◌^◌, length, IfOk};
ghost use Rattle.group_text.specs.GroupTexts.{group_in, group_of, parts_of};
ghost use Rattle.group_text.specs.Masks.{mask_with};

use crate::fault::GroupFault;
use crate::group_parts::GroupParts;
use party_names::Names;
use party_set::{Group, group_of_mask, has_party, with_party};

/// The group that a text names: the names of its members joined by `+`, in any order, or `0` for the empty group. It
/// takes no memory.
///
/// # Errors
///
/// The place of the first part that is no party's name, or stood before.
#[tactic(auto, unfolding(crate::specs::GroupTexts::group_in))]
pub fn read_group(text: &str, names: &Names) -> Result<Group, GroupFault>
    ensures is { result ≡ group_in names.now text.now }
    ensures parties { IfOk result (λ group. group.parties ≡ length names.now) }
{
    if text == "0" {
        return Ok(Group::empty(names.len()));
    }
    named_group(text, names)
}

fn named_group(text: &str, names: &Names) -> Result<Group, GroupFault>
    ensures { result ≡ group_of names.now (parts_of text.now) }
{
    let parties = names.len();
    let mut mask = 0;
    let mut at = 0;
    for part in GroupParts::of(text) {
        let Some(more) = mask_with(mask, part, names) else {
            return Err(GroupFault::BadGroup { at });
        };
        mask = more;
        at += 1;
    }
    Ok(group_of_mask(mask, parties))
}

// The mask with the party of this name too; none where no party has the name, or the party is in the mask.
fn mask_with(mask: u32, name: &str, names: &Names) -> Option<u32>
    requires { mask < 2 ^ length names.now }
    ensures { result ≡ mask_with names.now mask name.now }
{
    names.recall();
    let party = names.number(name)?;
    if has_party(mask, party) {
        return None;
    }
    Some(with_party(mask, party))
}
