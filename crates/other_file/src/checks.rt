//! The checks of the file as such.
ghost use Rattle.std.specs.Prelude.{◌≡◌, ◌⊎◌, Some, None, IfErr, IfOk, OnOk, map};
ghost use Rattle.toml.specs.Data.{no_members};
ghost use Rattle.toml.specs.View.{table_view};
ghost use Rattle.list_laws.specs.Checks.{first_fault, or_fault};
ghost use Rattle.party_file.specs.declared.fault.PartyFault.TheVariants.{Memory};
ghost use Rattle.other_file.specs.Table.{name_checks, kind_checks, inputs_in, file_checks};

use party_file::{PartyFault, PartyField, check_version};
use party_names::{NameText, Names};
use std::alloc::{AllocError, Global};
use toml::Table;
use toml_fields::{Kind, fields_at, has_field, is_misfit, least_unknown};

/// What stands under `inputs`; the empty table where nothing does, or something else than a table.
pub(crate) fn inputs_in<'t>(table: &'t Table, empty: &'t Table) -> &'t Table
    requires { table_view empty.now ≡ no_members }
    ensures { table_view result.now ≡ inputs_in (table_view table.now) }
{
    match fields_at(table, "inputs") {
        Some(given) => given,
        None => empty,
    }
}

/// No field has another name than these.
#[tactic(auto, unfolding(crate::specs::Table::name_checks))]
fn check_names(alloc: Global, table: &Table, known: &[&str]) -> Result<(), PartyFault>
    ensures passed { OnOk result
        (first_fault (name_checks (map (λ name. name.now) known.now) (table_view table.now)) ≡ None) }
    ensures fault { IfErr result (λ fault. (fault ≡ Memory)
        ⊎ (first_fault (name_checks (map (λ name. name.now) known.now) (table_view table.now)) ≡ Some fault)) }
{
    match least_unknown(table, known) {
        Some(name) => Err(PartyFault::Unknown {
            name: NameText::of(String::from_str(alloc, name)?),
        }),
        None => Ok(()),
    }
}

/// The inputs are there, and they are a table.
#[tactic(auto, unfolding(crate::specs::Table::kind_checks))]
fn check_kinds(table: &Table) -> Result<(), PartyFault>
    ensures { result ≡ or_fault (first_fault (kind_checks (table_view table.now))) tt }
{
    let field = PartyField::Inputs;
    if !has_field(table, "inputs") {
        return Err(PartyFault::Missing { field });
    }
    if is_misfit(table, "inputs", Kind::Fields) {
        return Err(PartyFault::WrongKind { field });
    }
    Ok(())
}

/// The names of the parties, in order.
fn texts_of(alloc: Global, names: &Names) -> Result<Vec<&str>, AllocError>
    ensures { IfOk result (λ texts. map (λ name. name.now) texts.items ≡ names.now) }
{
    let mut texts = Vec::new(alloc);
    for party in 0..names.len() {
        texts.push(names.name(party))?;
    }
    Ok(texts)
}

/// The names under `inputs` are the parties'.
fn check_parties(alloc: Global, given: &Table, names: &Names) -> Result<(), PartyFault>
    ensures passed { OnOk result (first_fault (name_checks names.now (table_view given.now)) ≡ None) }
    ensures fault { IfErr result (λ fault. (fault ≡ Memory)
        ⊎ (first_fault (name_checks names.now (table_view given.now)) ≡ Some fault)) }
{
    let known = texts_of(alloc, names)?;
    check_names(alloc, given, &known)
}

/// The checks of the file as such, in order.
pub(crate) fn check_file(
    alloc: Global,
    table: &Table,
    given: &Table,
    names: &Names,
) -> Result<(), PartyFault>
    requires { table_view given.now ≡ inputs_in (table_view table.now) }
    ensures passed { OnOk result (first_fault (file_checks names.now (table_view table.now)) ≡ None) }
    ensures fault { IfErr result (λ fault. (fault ≡ Memory)
        ⊎ (first_fault (file_checks names.now (table_view table.now)) ≡ Some fault)) }
{
    check_version(table)?;
    check_names(alloc, table, &["version", "inputs"])?;
    check_kinds(table)?;
    check_parties(alloc, given, names)
}
