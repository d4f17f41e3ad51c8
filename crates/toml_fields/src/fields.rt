//! The fields of a table, by name.
ghost use Rattle.std.specs.Prelude.{◌≡◌, map, IfOk};
ghost use Rattle.std.specs.Option.{option_map};
ghost use Rattle.std.specs.String.{string_bytes};
ghost use Rattle.toml.specs.Data.{get_member};
ghost use Rattle.toml.specs.View.{view, table_view};
ghost use Rattle.toml_fields.specs.Fields.{has_field, is_misfit, integer_at, text_at, items_at, texts_at, table_at};

use crate::kind::Kind;
use crate::values::{integer_of, is_of_kind, items_of, text_of, texts_of};
use std::alloc::{AllocError, Global};
use toml::{Table, Value};

/// The field of this name.
fn field<'t>(table: &'t Table, key: &str) -> Option<&'t Value>
    ensures { option_map (λ v. view v.now) result ≡ get_member key.now (table_view table.now) }
{
    table.get(key)
}

/// Whether there is a field of this name.
#[tactic(auto, unfolding(crate::specs::Fields::has_field))]
pub fn has_field(table: &Table, key: &str) -> bool
    ensures { result ≡ has_field key.now (table_view table.now) }
{
    field(table, key).is_some()
}

/// Whether there is a field of this name that is of another kind.
#[tactic(auto, unfolding(crate::specs::Fields::is_misfit))]
pub fn is_misfit(table: &Table, key: &str, kind: Kind) -> bool
    ensures { result ≡ is_misfit kind key.now (table_view table.now) }
{
    match field(table, key) {
        Some(value) => !is_of_kind(value, kind),
        None => false,
    }
}

/// The number of the field of this name, or 0 where it is missing or no integer.
#[tactic(auto, unfolding(crate::specs::Fields::integer_at))]
pub fn integer_at(table: &Table, key: &str) -> i64
    ensures { result ≡ integer_at key.now (table_view table.now) }
{
    match field(table, key) {
        Some(value) => integer_of(value),
        None => 0,
    }
}

/// The text of the field of this name, or the empty one where it is missing or no text.
#[tactic(auto, unfolding(crate::specs::Fields::text_at))]
pub fn text_at<'t>(table: &'t Table, key: &str) -> &'t str
    ensures { result.now ≡ text_at key.now (table_view table.now) }
{
    match field(table, key) {
        Some(value) => text_of(value),
        None => "",
    }
}

/// The items of the field of this name, or none where it is missing or no list.
#[tactic(auto, unfolding(crate::specs::Fields::items_at))]
pub fn items_at<'t>(table: &'t Table, key: &str) -> &'t [Value]
    ensures { map view result.now ≡ items_at key.now (table_view table.now) }
{
    match field(table, key) {
        Some(value) => items_of(value),
        None => &[],
    }
}

/// Copies of the texts of the list of this name, or none where it is missing or no list.
#[tactic(auto, unfolding(crate::specs::Fields::texts_at))]
pub fn texts_at(alloc: Global, table: &Table, key: &str) -> Result<Vec<String>, AllocError>
    ensures { IfOk result (λ texts. map string_bytes texts.items ≡ texts_at key.now (table_view table.now)) }
{
    texts_of(alloc, items_at(table, key))
}

/// The fields of the table of this name, if there is one.
#[tactic(auto, unfolding(crate::specs::Fields::table_at))]
pub fn fields_at<'t>(table: &'t Table, key: &str) -> Option<&'t Table>
    ensures { option_map (λ found. table_view found.now) result ≡ table_at key.now (table_view table.now) }
{
    field(table, key)?.as_table()
}
