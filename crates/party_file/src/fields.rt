//! The checks of the fields of a party's file.
ghost use Rattle.std.specs.Prelude.{◌≡◌, ◌⊎◌, Some, None, Ok, Err, IfErr, OnOk, if◌then◌else◌};
ghost use Rattle.toml.specs.View.{table_view};
ghost use Rattle.list_laws.specs.Checks.{first_fault, or_fault};
ghost use Rattle.party_file.specs.Table.{version_checks, name_checks, kind_checks, count_checks};
ghost use Rattle.party_file.specs.declared.fault.PartyFault.TheVariants.{Memory};

use crate::fault::PartyFault;
use crate::field::PartyField;
use party_names::NameText;
use std::alloc::Global;
use toml::Table;
use toml_fields::{Kind, has_field, integer_at, is_misfit, items_at, least_unknown};

/// A fault where a check failed.
pub fn check(failed: bool, fault: PartyFault) -> Result<(), PartyFault>
    ensures { result ≡ (if failed then Err fault else Ok tt) }
{
    if failed { Err(fault) } else { Ok(()) }
}

/// The version is there, and 1.
#[tactic(auto, unfolding(crate::specs::Table::version_checks))]
pub fn check_version(table: &Table) -> Result<(), PartyFault>
    ensures { result ≡ or_fault (first_fault (version_checks (table_view table.now))) tt }
{
    let field = PartyField::Version;
    check(!has_field(table, "version"), PartyFault::Missing { field })?;
    check(
        is_misfit(table, "version", Kind::Integer),
        PartyFault::WrongKind { field },
    )?;
    let found = integer_at(table, "version");
    check(found != 1, PartyFault::Version { found })
}

/// No field has another name.
#[tactic(auto, unfolding(crate::specs::Table::name_checks))]
pub fn check_names(alloc: Global, table: &Table) -> Result<(), PartyFault>
    ensures passed { OnOk result (first_fault (name_checks (table_view table.now)) ≡ None) }
    ensures fault { IfErr result (λ fault. (fault ≡ Memory)
        ⊎ (first_fault (name_checks (table_view table.now)) ≡ Some fault)) }
{
    match least_unknown(table, &["version", "inputs", "tape", "seed"]) {
        Some(name) => Err(PartyFault::Unknown {
            name: NameText::of(String::from_str(alloc, name)?),
        }),
        None => Ok(()),
    }
}

/// The inputs are there, and each field is of its kind.
#[tactic(auto, unfolding(crate::specs::Table::kind_checks))]
pub fn check_kinds(table: &Table) -> Result<(), PartyFault>
    ensures { result ≡ or_fault (first_fault (kind_checks (table_view table.now))) tt }
{
    let inputs = PartyField::Inputs;
    check(
        !has_field(table, "inputs"),
        PartyFault::Missing { field: inputs },
    )?;
    check(
        is_misfit(table, "inputs", Kind::Texts),
        PartyFault::WrongKind { field: inputs },
    )?;
    check(
        is_misfit(table, "tape", Kind::Text),
        PartyFault::WrongKind {
            field: PartyField::Tape,
        },
    )?;
    check(
        is_misfit(table, "seed", Kind::Text),
        PartyFault::WrongKind {
            field: PartyField::Seed,
        },
    )
}

/// There is one of tape and seed, and a text of inputs for each session.
#[tactic(auto, unfolding(crate::specs::Table::count_checks, toml_fields::specs::Fields::texts_at))]
pub fn check_counts(table: &Table, sessions: u32) -> Result<(), PartyFault>
    ensures { result ≡ or_fault (first_fault (count_checks sessions (table_view table.now))) tt }
{
    let tape = has_field(table, "tape");
    let seed = has_field(table, "seed");
    check(tape && seed, PartyFault::TapeAndSeed)?;
    check(
        !(tape || seed),
        PartyFault::Missing {
            field: PartyField::Tape,
        },
    )?;
    let wanted = u64::from(sessions);
    let found = items_at(table, "inputs").len() as u64;
    check(
        found != wanted,
        PartyFault::CountDiffers {
            session: None,
            wanted,
            found,
        },
    )
}
