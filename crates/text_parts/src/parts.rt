//! Numbers and groups, written at the end of a text.
ghost use Rattle.std.specs.Prelude.{◌≡◌, ◌<◌, ◌++◌, OnOk, codes, decimal, length};
ghost use Rattle.std.specs.Fmt.{signed_decimal};
ghost use Rattle.list_laws.specs.Lists.{only_if};
ghost use Rattle.text_parts.specs.Parts.{group_text, member_text};

use itoa::Buffer;
use party_names::Names;
use party_set::{Group, party_mask};
use std::alloc::AllocError;

/// Adds these bytes.
pub fn push_text(text: &mut Vec<u8>, piece: &[u8]) -> Result<(), AllocError>
    ensures { OnOk result (text.new.items ≡ text.old.items ++ piece.now) }
{
    text.extend_from_slice(piece)
}

/// Adds the digits of a number.
pub fn push_number(text: &mut Vec<u8>, number: u64) -> Result<(), AllocError>
    ensures { OnOk result (text.new.items ≡ text.old.items ++ decimal number) }
{
    text.extend_from_slice(Buffer::new().format(number).as_bytes())
}

/// Adds a number that may be below 0.
pub fn push_signed(text: &mut Vec<u8>, number: i64) -> Result<(), AllocError>
    ensures { OnOk result (text.new.items ≡ text.old.items ++ signed_decimal number) }
{
    text.extend_from_slice(Buffer::new().format(number).as_bytes())
}

/// Adds the names of a group's members, in order and joined by `+`, or `0` for the empty group.
pub fn push_group(text: &mut Vec<u8>, group: Group, names: &Names) -> Result<(), AllocError>
    requires { group.parties ≡ length names.now }
    ensures { OnOk result (text.new.items ≡ text.old.items ++ group_text names.now group.mask) }
{
    if group.mask() == 0 {
        return push_text(text, b"0");
    }
    for party in 0..names.len() {
        push_member(text, group, names, party)?;
    }
    Ok(())
}

// Adds the name of a party, if it is a member, after a `+` where a lower party is one.
fn push_member(
    text: &mut Vec<u8>,
    group: Group,
    names: &Names,
    party: u32,
) -> Result<(), AllocError>
    requires parties { group.parties ≡ length names.now }
    requires party { party < length names.now }
    ensures { OnOk result (text.new.items ≡ text.old.items ++ member_text names.now group.mask party) }
{
    if !group.has(party) {
        return Ok(());
    }
    push_plus(text, group.mask() % party_mask(party) != 0)?;
    push_text(text, names.name(party).as_bytes())
}

fn push_plus(text: &mut Vec<u8>, wanted: bool) -> Result<(), AllocError>
    ensures { OnOk result (text.new.items ≡ text.old.items ++ only_if wanted (codes "+")) }
{
    if wanted {
        push_text(text, b"+")?;
    }
    Ok(())
}
