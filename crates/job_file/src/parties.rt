//! Lists of parties' names.
ghost use Rattle.std.specs.Prelude.{◌≡◌, ◌<◌, ◌||◌, map, [], length, IfSome};
ghost use Rattle.std.specs.List.{list_any};
ghost use Rattle.std.specs.Str.{bytes_eq};
ghost use Rattle.toml.specs.View.{view};
ghost use Rattle.toml_fields.specs.Fields.{text_of, texts_of};
ghost use Rattle.job_file.specs.Faults.{bad_name, bad_in_lists, is_no_party};

use party_names::Names;
use toml::Value;
use toml_fields::{items_of, text_of};

/// The first text that is no party's name, or stands before in its list: its list, and its place there.
pub fn bad_in_lists(lists: &[Value], names: &Names) -> Option<(usize, usize)>
    ensures is { result ≡ bad_in_lists names.now 0 (map texts_of (map view lists.now)) }
    ensures within { IfSome result (λ bad. bad.0 < length lists.now) }
{
    for (value, list) in lists.iter().enumerate() {
        if let Some(at) = bad_name(items_of(list), names) {
            return Some((value, at));
        }
    }
    None
}

fn bad_name(texts: &[Value], names: &Names) -> Option<usize>
    ensures { result ≡ bad_name names.now [] (map text_of (map view texts.now)) }
{
    for (at, item) in texts.iter().enumerate() {
        let text = text_of(item);
        if is_bad(text, &texts[..at], names) {
            return Some(at);
        }
    }
    None
}

// Whether the text is no party, or stands before. What stands before are different parties, so 12 at most.
fn is_bad(text: &str, before: &[Value], names: &Names) -> bool
    ensures { result ≡ (is_no_party names.now text.now
        || list_any (λ item. bytes_eq (text_of (view item)) text.now) before.now) }
{
    names.number(text).is_none() || is_among(before, text)
}

fn is_among(items: &[Value], text: &str) -> bool
    ensures { result ≡ list_any (λ item. bytes_eq (text_of (view item)) text.now) items.now }
{
    items.iter().any(|item| text_of(item) == text)
}
