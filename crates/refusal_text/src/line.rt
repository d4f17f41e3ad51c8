//! The line of a refusal.
ghost use Rattle.std.specs.Prelude.{◌≡◌, ◌++◌, IfOk, IsErr, OnOk, [], codes, map, slice_index_or};
ghost use Rattle.std.specs.Option.{option_map_or};
ghost use Rattle.fault_table.specs.Tables.{told_key, told_value, Number, Text};
ghost use Rattle.refusal_text.specs.Lines.{head, refusal_line, key_head, keys_text, value_text};

use crate::masked::push_masked;
use fault_table::{Entry, EntryKey, KeyValue};
use party_names::Names;
use std::alloc::{AllocError, Global};
use text_parts::{push_number, push_signed, push_text};

/// The line of a part that refuses, with these keys in front of those of the fault. A party is told by its name, where
/// names are given. Want of memory, which has the number 0, has no line.
pub(crate) fn refusal_line(
    alloc: Global,
    part: &str,
    names: Option<&Names>,
    front: &[EntryKey],
    entry: &Entry,
) -> Result<Vec<u8>, AllocError>
    ensures memory { entry.now.number ≡ 0 → IsErr result }
    ensures line { IfOk result (λ text. text.items
        ≡ refusal_line part.now (option_map_or (λ n. n.now) names.entry []) (map told_key front.now) entry.now) }
{
    if entry.number() == 0 {
        return Err(AllocError);
    }
    let mut text = Vec::new(alloc);
    push_head(&mut text, part, entry)?;
    push_keys(&mut text, names, front)?;
    push_keys(&mut text, names, entry.keys())?;
    push_text(&mut text, b"\n")?;
    Ok(text)
}

fn push_head(text: &mut Vec<u8>, part: &str, entry: &Entry) -> Result<(), AllocError>
    ensures { OnOk result (text.new.items ≡ text.old.items ++ head part.now entry.now) }
{
    push_text(text, b"refused ")?;
    push_text(text, part.as_bytes())?;
    push_text(text, b" ")?;
    push_number(text, entry.number() as u64)?;
    push_text(text, b" ")?;
    push_text(text, entry.name().as_bytes())
}

fn push_keys(text: &mut Vec<u8>, names: Option<&Names>, keys: &[EntryKey]) -> Result<(), AllocError>
    ensures { OnOk result (text.new.items
        ≡ text.old.items ++ keys_text (option_map_or (λ n. n.now) names.entry []) (map told_key keys.now)) }
{
    for key in keys {
        push_key(text, key.key)?;
        push_value(text, names, key.value)?;
    }
    Ok(())
}

fn push_key(text: &mut Vec<u8>, key: &str) -> Result<(), AllocError>
    ensures { OnOk result (text.new.items ≡ text.old.items ++ key_head key.now) }
{
    push_text(text, b" ")?;
    push_text(text, key.as_bytes())?;
    push_text(text, b"=")
}

fn push_value(text: &mut Vec<u8>, names: Option<&Names>, value: KeyValue) -> Result<(), AllocError>
    ensures { OnOk result (text.new.items
        ≡ text.old.items ++ value_text (option_map_or (λ n. n.now) names.entry []) (told_value value.entry)) }
{
    match value {
        KeyValue::Number(number) => push_number(text, number),
        KeyValue::Signed(number) => push_signed(text, number),
        KeyValue::Text(value) => push_text(text, value),
        KeyValue::Name(name) => push_masked(text, name),
        KeyValue::Party(party) => push_party(text, names, party),
    }
}

fn push_party(text: &mut Vec<u8>, names: Option<&Names>, party: u32) -> Result<(), AllocError>
    ensures { OnOk result (text.new.items
        ≡ text.old.items ++ slice_index_or (option_map_or (λ n. n.now) names.entry []) party []) }
{
    match names {
        Some(names) if party < names.len() => push_text(text, names.name(party).as_bytes()),
        _ => Ok(()),
    }
}

/// The key of the session that has the fault.
pub fn session_key(session: u32) -> EntryKey<'static>
    ensures { told_key result ≡ (codes "session", Number session) }
{
    EntryKey {
        key: "session",
        value: KeyValue::Number(session as u64),
    }
}

/// The key of the file that has the fault.
pub fn file_key(file: &str) -> EntryKey<'_>
    ensures { told_key result ≡ (codes "file", Text file.now) }
{
    EntryKey {
        key: "file",
        value: KeyValue::Text(file.as_bytes()),
    }
}
