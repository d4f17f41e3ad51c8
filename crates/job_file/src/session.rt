//! Rows of the table of faults that speak of a session.
ghost use Rattle.std.specs.Prelude.{◌≡◌, ◌≤◌, map, length};
ghost use Rattle.std.specs.Option.{option_map, unwrap_or};
ghost use Rattle.toml.specs.Data.{as_table};
ghost use Rattle.toml.specs.View.{view, table_view};
ghost use Rattle.toml_fields.specs.Fields.{text_of, texts_of, fields_of};
ghost use Rattle.job_file.specs.Answers.{TellsFault, TellsOrMemory};
ghost use Rattle.job_file.specs.Faults.{session_fields_fault, session_values_fault, sessions_fault, owner_fault, owners_fault, bad_in_lists};
ghost use Rattle.job_file.specs.declared.fault.JobFault.TheVariants.{BadReader};

use crate::check::{
    check, check_optional, check_required, check_session_known, layered_gates_in, products_in,
};
use crate::fault::JobFault;
use crate::field::JobField;
use crate::owner::{is_carry, owner_in};
use crate::parties::bad_in_lists;
use crate::texts::{is_file_name, layout_of};
use job_limits::MOST_SESSIONS;
use party_names::Names;
use std::alloc::Global;
use toml::{Table, Value};
use toml_fields::{fields_of, items_at, text_at, text_of};

#[tactic(auto, unfolding(crate::specs::Faults::session_fields_fault))]
fn check_fields(
    alloc: Global,
    table: &Table,
    version_two: bool,
    session: u32,
) -> Result<(), JobFault>
    ensures { TellsOrMemory result (session_fields_fault version_two session (table_view table.now)) }
{
    check_session_known(alloc, table, version_two, session)?;
    check_required(table, Some(session), JobField::Circuit)?;
    check_required(table, Some(session), JobField::Layout)?;
    check_optional(table, Some(session), JobField::Products)?;
    check_optional(table, Some(session), JobField::Order)?;
    check_required(table, Some(session), JobField::Owners)?;
    check_required(table, Some(session), JobField::Readers)?;
    Ok(())
}

#[tactic(auto, unfolding(crate::specs::Faults::session_values_fault, toml_fields::specs::Fields::texts_at))]
fn check_values(
    table: &Table,
    version_two: bool,
    session: u32,
    names: &Names,
) -> Result<(), JobFault>
    ensures { TellsOrMemory result (session_values_fault version_two names.now session (table_view table.now)) }
{
    let circuit = text_at(table, JobField::Circuit.text());
    check(!is_file_name(circuit), JobFault::BadFileName { session })?;
    let layout = layout_of(version_two, text_at(table, JobField::Layout.text()));
    check(layout.is_none(), JobFault::BadLayout { session })?;
    check(
        products_in(table).is_none(),
        JobFault::BadProducts { session },
    )?;
    check(
        layered_gates_in(table).is_none(),
        JobFault::BadOrder { session },
    )?;
    check_owners(
        items_at(table, JobField::Owners.text()),
        version_two,
        session,
        names,
    )?;
    check_readers(items_at(table, JobField::Readers.text()), session, names)
}

fn check_owners(
    owners: &[Value],
    version_two: bool,
    session: u32,
    names: &Names,
) -> Result<(), JobFault>
    ensures { TellsFault result (owners_fault version_two names.now session 0 (map text_of (map view owners.now))) }
{
    for (at, item) in owners.iter().enumerate() {
        check_owner(text_of(item), at as u64, version_two, session, names)?;
    }
    Ok(())
}

fn check_owner(
    text: &str,
    at: u64,
    version_two: bool,
    session: u32,
    names: &Names,
) -> Result<(), JobFault>
    ensures { TellsFault result (owner_fault version_two names.now session at text.now) }
{
    if owner_in(version_two, names, session, text).is_some() {
        return Ok(());
    }
    if is_carry(version_two, text) {
        return Err(JobFault::BadCarry { session, at });
    }
    Err(JobFault::BadOwner { session, at })
}

// More values than a `u32` counts do not fit in memory.
fn check_readers(values: &[Value], session: u32, names: &Names) -> Result<(), JobFault>
    ensures { TellsOrMemory result (option_map (λ bad. BadReader session bad.0 bad.1)
        (bad_in_lists names.now 0 (map texts_of (map view values.now)))) }
{
    let Some((value, at)) = bad_in_lists(values, names) else {
        return Ok(());
    };
    let Ok(value) = u32::try_from(value) else {
        return Err(JobFault::Memory);
    };
    Err(JobFault::BadReader {
        session,
        value,
        at: at as u64,
    })
}

/// The fields of a table, or these, where the value is no table.
pub fn fields_or<'t>(value: &'t Value, other: &'t Table) -> &'t Table
    ensures { table_view result.now ≡ unwrap_or (as_table (view value.now)) (table_view other.now) }
{
    fields_of(value).unwrap_or(other)
}

/// Checks the sessions of a file of version 2 or not, in order.
pub fn check_sessions(
    alloc: Global,
    sessions: &[Value],
    version_two: bool,
    names: &Names,
) -> Result<(), JobFault>
    requires { length sessions.now ≤ MOST_SESSIONS }
    ensures { TellsOrMemory result (sessions_fault version_two names.now 0 (map fields_of (map view sessions.now))) }
{
    let empty = Table::new(alloc);
    for (session, item) in sessions.iter().enumerate() {
        let table = fields_or(item, &empty);
        check_fields(alloc, table, version_two, session as u32)?;
        check_values(table, version_two, session as u32, names)?;
    }
    Ok(())
}
