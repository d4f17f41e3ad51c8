//! Rows of the table of faults that speak of one field.
ghost use Rattle.std.specs.Prelude.{◌≡◌, IfOk, map};
ghost use Rattle.std.specs.Option.{option_map};
ghost use Rattle.toml_fields.specs.Keys.{least_unknown};
ghost use Rattle.toml.specs.View.{table_view};
ghost use Rattle.job_file.specs.Names.{top_fields, session_fields};
ghost use Rattle.job_file.specs.Forms.{is_version_two, adversary_field, products_in, layered_gates_in, short_frames_in, own_views_in};
ghost use Rattle.job_file.specs.Faults.{is_there, is_of_other_kind, required_fault, optional_fault, node_fault, unknown_fault};
ghost use Rattle.job_file.specs.Answers.{TellsFault, TellsOrMemory};
ghost use Rattle.list_laws.specs.Checks.{◌answers◌};
ghost use Rattle.job_file.specs.declared.fault.JobFault.TheVariants.{Unknown};

use crate::fault::JobFault;
use crate::field::JobField;
use crate::products::Products;
use crate::texts::{are_layered, are_own, are_short, products_named};
use party_names::NameText;
use std::alloc::{AllocError, Global};
use toml::Table;
use toml_fields::{has_field, integer_at, is_misfit, least_unknown, text_at};

/// The fault, where the test failed.
pub fn check(failed: bool, fault: JobFault) -> Result<(), JobFault>
    ensures { TellsFault result (failed answers fault) }
{
    if failed { Err(fault) } else { Ok(()) }
}

/// Whether the table has the field.
pub fn is_there(table: &Table, field: JobField) -> bool
    ensures { result ≡ is_there field (table_view table.now) }
{
    has_field(table, field.text())
}

fn is_of_other_kind(table: &Table, field: JobField) -> bool
    ensures { result ≡ is_of_other_kind field (table_view table.now) }
{
    is_misfit(table, field.text(), field.kind())
}

/// Checks a field that must be there.
#[tactic(auto, unfolding(crate::specs::Faults::required_fault))]
pub fn check_required(table: &Table, session: Option<u32>, field: JobField) -> Result<(), JobFault>
    ensures { TellsFault result (required_fault session field (table_view table.now)) }
{
    check(
        !is_there(table, field),
        JobFault::Missing { session, field },
    )?;
    check(
        is_of_other_kind(table, field),
        JobFault::WrongKind { session, field },
    )
}

/// Checks a field that may be missing.
#[tactic(auto, unfolding(crate::specs::Faults::optional_fault))]
pub fn check_optional(table: &Table, session: Option<u32>, field: JobField) -> Result<(), JobFault>
    ensures { TellsFault result (optional_fault session field (table_view table.now)) }
{
    check(
        is_of_other_kind(table, field),
        JobFault::WrongKind { session, field },
    )
}

/// Checks a field of the top table that may be missing, unless the job is read for a node.
pub fn check_for_node(table: &Table, node: bool, field: JobField) -> Result<(), JobFault>
    ensures { TellsFault result (node_fault node field (table_view table.now)) }
{
    if node {
        check_required(table, None, field)
    } else {
        check_optional(table, None, field)
    }
}

fn unknown(alloc: Global, session: Option<u32>, name: &str) -> Result<JobFault, AllocError>
    ensures { IfOk result (λ fault. fault ≡ Unknown session name.now) }
{
    let name = NameText::of(String::from_str(alloc, name)?);
    Ok(JobFault::Unknown { session, name })
}

fn check_known(
    alloc: Global,
    table: &Table,
    session: Option<u32>,
    known: &[&str],
) -> Result<(), JobFault>
    ensures { TellsOrMemory result (option_map (λ name. Unknown session name)
        (least_unknown (map (λ name. name.now) known.now) (table_view table.now))) }
{
    match least_unknown(table, known) {
        None => Ok(()),
        Some(name) => Err(unknown(alloc, session, name)?),
    }
}

/// Whether the file is of version 2, which lists the tolerated groups.
pub fn is_version_two(table: &Table) -> bool
    ensures { result ≡ is_version_two (table_view table.now) }
{
    integer_at(table, JobField::Version.text()) == 2
}

/// The field that tells the tolerated groups.
pub fn adversary_field(table: &Table) -> JobField
    ensures { result ≡ adversary_field (table_view table.now) }
{
    if is_version_two(table) {
        JobField::Tolerated
    } else {
        JobField::Formula
    }
}

/// How the products of a session are made, by the text that tells it: they are direct where no field tells.
#[tactic(auto, unfolding(crate::specs::Forms::products_in))]
pub fn products_in(table: &Table) -> Option<Products>
    ensures { result ≡ products_in (table_view table.now) }
{
    if is_there(table, JobField::Products) {
        products_named(text_at(table, JobField::Products.text()))
    } else {
        Some(Products::Direct)
    }
}

/// Whether the gates of a session go in layers, by the text that tells it: they keep the file's order where no field
/// tells.
#[tactic(auto, unfolding(crate::specs::Forms::layered_gates_in))]
pub fn layered_gates_in(table: &Table) -> Option<bool>
    ensures { result ≡ layered_gates_in (table_view table.now) }
{
    if is_there(table, JobField::Order) {
        are_layered(text_at(table, JobField::Order.text()))
    } else {
        Some(false)
    }
}

/// Whether frames between nodes are short, by the text that tells it: they name their messages where no field tells.
#[tactic(auto, unfolding(crate::specs::Forms::short_frames_in))]
pub fn short_frames_in(table: &Table) -> Option<bool>
    ensures { result ≡ short_frames_in (table_view table.now) }
{
    if is_there(table, JobField::Frames) {
        are_short(text_at(table, JobField::Frames.text()))
    } else {
        Some(false)
    }
}

/// Whether each node writes its own view, by the text that tells it: none does where no field tells.
#[tactic(auto, unfolding(crate::specs::Forms::own_views_in))]
pub fn own_views_in(table: &Table) -> Option<bool>
    ensures { result ≡ own_views_in (table_view table.now) }
{
    if is_there(table, JobField::Views) {
        are_own(text_at(table, JobField::Views.text()))
    } else {
        Some(false)
    }
}

/// Checks that the top table has no other fields.
#[tactic(auto, unfolding(crate::specs::Faults::unknown_fault))]
pub fn check_top_known(alloc: Global, table: &Table) -> Result<(), JobFault>
    ensures { let fields = table_view table.now in
        TellsOrMemory result
        (unknown_fault None (top_fields (is_version_two fields) (adversary_field fields)) fields) }
{
    let known = [
        JobField::Version.text(),
        JobField::RingBits.text(),
        JobField::Parties.text(),
        adversary_field(table).text(),
        JobField::Hosts.text(),
        JobField::Port.text(),
        JobField::Session.text(),
        JobField::Frames.text(),
        JobField::Views.text(),
    ];
    if is_version_two(table) {
        check_known(alloc, table, None, &known)
    } else {
        check_known(alloc, table, None, &known[..7])
    }
}

/// Checks that the table of a session has no other fields.
#[tactic(auto, unfolding(crate::specs::Faults::unknown_fault))]
pub fn check_session_known(
    alloc: Global,
    table: &Table,
    version_two: bool,
    session: u32,
) -> Result<(), JobFault>
    ensures { TellsOrMemory result
        (unknown_fault (Some session) (session_fields version_two) (table_view table.now)) }
{
    let fields = [
        JobField::Circuit.text(),
        JobField::Layout.text(),
        JobField::Owners.text(),
        JobField::Readers.text(),
        JobField::Products.text(),
        JobField::Order.text(),
    ];
    if version_two {
        check_known(alloc, table, Some(session), &fields)
    } else {
        check_known(alloc, table, Some(session), &fields[..4])
    }
}
