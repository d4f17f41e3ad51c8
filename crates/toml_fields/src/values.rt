//! What a value gives, and its kind.
ghost use Rattle.std.specs.Prelude.{◌≡◌, map, IfOk};
ghost use Rattle.std.specs.Option.{option_map};
ghost use Rattle.std.specs.List.{list_all};
ghost use Rattle.std.specs.String.{string_bytes};
ghost use Rattle.toml.specs.Data.{as_table};
ghost use Rattle.toml.specs.View.{view, table_view};
ghost use Rattle.toml_fields.specs.Fields.{integer_of, text_of, items_of, is_text, is_table, is_list_of, is_of_kind};

use crate::kind::Kind;
use std::alloc::{AllocError, Global};
use toml::{Table, Value};

/// The number, or 0 where the value is no integer.
#[tactic(auto, unfolding(crate::specs::Fields::integer_of))]
pub fn integer_of(value: &Value) -> i64
    ensures { result ≡ integer_of (view value.now) }
{
    value.as_integer().unwrap_or(0)
}

/// The text, or the empty one where the value is none.
#[tactic(auto, unfolding(crate::specs::Fields::text_of))]
pub fn text_of(value: &Value) -> &str
    ensures { result.now ≡ text_of (view value.now) }
{
    value.as_str().unwrap_or("")
}

/// The items, or none where the value is no list.
#[tactic(auto, unfolding(crate::specs::Fields::items_of))]
pub fn items_of(value: &Value) -> &[Value]
    ensures { map view result.now ≡ items_of (view value.now) }
{
    match value.as_array() {
        Some(items) => items.as_slice(),
        None => &[],
    }
}

/// The fields of a table.
pub fn fields_of(value: &Value) -> Option<&Table>
    ensures { option_map (λ table. table_view table.now) result ≡ as_table (view value.now) }
{
    value.as_table()
}

/// Copies of the texts of a list.
pub fn texts_of(alloc: Global, items: &[Value]) -> Result<Vec<String>, AllocError>
    ensures { IfOk result (λ texts. map string_bytes texts.items ≡ map text_of (map view items.now)) }
{
    let mut texts = Vec::new(alloc);
    for item in items {
        texts.push(String::from_str(alloc, text_of(item))?)?;
    }
    Ok(texts)
}

fn is_text(value: &Value) -> bool
    ensures { result ≡ is_text (view value.now) }
{
    value.is_str()
}

fn is_table(value: &Value) -> bool
    ensures { result ≡ is_table (view value.now) }
{
    value.is_table()
}

#[tactic(auto, unfolding(crate::specs::Fields::is_list_of))]
fn are_texts(value: &Value) -> bool
    ensures { result ≡ is_list_of is_text (view value.now) }
{
    value.is_array() && all_texts(items_of(value))
}

fn all_texts(items: &[Value]) -> bool
    ensures { result ≡ list_all (λ item. is_text (view item)) items.now }
{
    items.iter().all(|item| is_text(item))
}

#[tactic(auto, unfolding(crate::specs::Fields::is_list_of))]
fn are_text_lists(value: &Value) -> bool
    ensures { result ≡ is_list_of (is_list_of is_text) (view value.now) }
{
    value.is_array() && all_text_lists(items_of(value))
}

fn all_text_lists(items: &[Value]) -> bool
    ensures { result ≡ list_all (λ item. is_list_of is_text (view item)) items.now }
{
    items.iter().all(|item| are_texts(item))
}

#[tactic(auto, unfolding(crate::specs::Fields::is_list_of))]
fn are_tables(value: &Value) -> bool
    ensures { result ≡ is_list_of is_table (view value.now) }
{
    value.is_array() && all_tables(items_of(value))
}

fn all_tables(items: &[Value]) -> bool
    ensures { result ≡ list_all (λ item. is_table (view item)) items.now }
{
    items.iter().all(|item| is_table(item))
}

/// Whether the value is of this kind.
#[tactic(auto, unfolding(crate::specs::Fields::is_of_kind))]
pub fn is_of_kind(value: &Value, kind: Kind) -> bool
    ensures { result ≡ is_of_kind kind (view value.now) }
{
    match kind {
        Kind::Integer => value.is_integer(),
        Kind::Text => is_text(value),
        Kind::Texts => are_texts(value),
        Kind::TextLists => are_text_lists(value),
        Kind::Tables => are_tables(value),
        Kind::Fields => is_table(value),
    }
}
