//! Names that are not known.
ghost use Rattle.std.specs.Prelude.{◌≡◌, map, not, find};
ghost use Rattle.std.specs.Option.{option_map};
ghost use Rattle.std.specs.List.{list_any};
ghost use Rattle.std.specs.Str.{bytes_eq};
ghost use Rattle.std.specs.BTreeMap.{keys, IsOrdered};
ghost use Rattle.std.specs.String.{string_bytes, string_cmp};
ghost use Rattle.toml.specs.View.{table_view};
ghost use Rattle.toml_fields.specs.Keys.{is_known, least_unknown};

use toml::Table;

/// The least name by bytes of a field that is not among these names.
pub fn least_unknown<'t>(table: &'t Table, known: &[&str]) -> Option<&'t str>
    ensures { option_map (λ name. name.now) result
        ≡ least_unknown (map (λ name. name.now) known.now) (table_view table.now) }
{
    match first_unknown(table, known) {
        Some(name) => Some(name.as_str()),
        None => None,
    }
}

fn first_unknown<'t>(table: &'t Table, known: &[&str]) -> Option<&'t String>
    ensures found { option_map (λ name. name.now) result
        ≡ find (λ name. not (is_known (map (λ other. other.now) known.now) (string_bytes name))) (keys table.now) }
    ensures ordered { IsOrdered string_cmp table.now }
{
    table.keys().find(|name| !is_known(name.as_str(), known))
}

fn is_known(name: &str, known: &[&str]) -> bool
    ensures { result ≡ is_known (map (λ other. other.now) known.now) name.now }
{
    is_among(name, known)
}

fn is_among(name: &str, names: &[&str]) -> bool
    ensures { result ≡ list_any (λ other. bytes_eq other.now name.now) names.now }
{
    names.iter().any(|other| *other == name)
}
