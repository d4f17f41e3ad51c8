//! Reading a job's file.
ghost use Rattle.std.specs.Prelude.{◌≡◌, ◌≢◌, ◌∷◌, [], IfOk, MatchResult, Some, None, Ok, Err, length};
ghost use Rattle.toml.specs.View.{table_view};
ghost use Rattle.job_file.specs.Answers.{TellsOrMemory};
ghost use Rattle.job_file.specs.Names.{top_fields};
ghost use Rattle.job_file.specs.Forms.{is_version_two, adversary_field, job_form, items, tables, texts};
ghost use Rattle.job_file.specs.Jobs.{job_view, IsJob};
ghost use Rattle.list_laws.specs.Checks.{first_fault};
ghost use Rattle.job_file.specs.Faults.{version_fault, unknown_fault, fields_fault, ring_fault, adversary_fault, count_fault, sessions_fault, hosts_fault, port_fault, frames_fault, views_fault, job_fault, job_in};
ghost use Rattle.job_file.specs.declared.field.JobField.TheVariants.{Parties, Session};
ghost use Rattle.job_file.specs.declared.fault.JobFault.TheVariants.{Memory};

use crate::check::{check_top_known, is_version_two};
use crate::fault::JobFault;
use crate::field::JobField;
use crate::job::Job;
use crate::session::check_sessions;
use crate::top::{
    check_adversary, check_count, check_fields, check_frames, check_hosts, check_port, check_ring,
    check_version, check_views, read_parties,
};
use crate::values::job_of;
use party_names::Names;
use std::alloc::Global;
use toml::Table;
use toml_fields::{document, items_at};

fn check_head(alloc: Global, table: &Table, node: bool) -> Result<(), JobFault>
    ensures { let fields = table_view table.now in TellsOrMemory result (first_fault
        (version_fault fields
        ∷ unknown_fault None (top_fields (is_version_two fields) (adversary_field fields)) fields
        ∷ fields_fault node fields
        ∷ ring_fault fields
        ∷ [])) }
{
    check_version(table)?;
    check_top_known(alloc, table)?;
    check_fields(table, node)?;
    check_ring(table)?;
    Ok(())
}

// Checks the rows of the table that come after those of the parties, whose names these are.
fn check_rest(alloc: Global, table: &Table, names: &Names) -> Result<(), JobFault>
    requires { names.now ≡ texts Parties (table_view table.now) }
    ensures { let fields = table_view table.now in TellsOrMemory result (first_fault
        (adversary_fault fields
        ∷ count_fault (length (items Session fields))
        ∷ sessions_fault (is_version_two fields) (texts Parties fields) 0 (tables Session fields)
        ∷ hosts_fault fields
        ∷ port_fault fields
        ∷ frames_fault fields
        ∷ views_fault fields
        ∷ [])) }
{
    check_adversary(table, names)?;
    let sessions = items_at(table, JobField::Session.text());
    check_count(sessions.len())?;
    check_sessions(alloc, sessions, is_version_two(table), names)?;
    check_hosts(table, names.len())?;
    check_port(table)?;
    check_frames(table)?;
    Ok(check_views(table)?)
}

#[tactic(auto, unfolding(crate::specs::Faults::job_fault))]
fn read_table(alloc: Global, table: &Table, node: bool) -> Result<Job, JobFault>
    ensures job { MatchResult result
        (λ job. (job_fault node (table_view table.now) ≡ None) × (job_view job ≡ job_form (table_view table.now)))
        (λ fault. fault ≢ Memory → job_fault node (table_view table.now) ≡ Some fault) }
    ensures facts { IfOk result IsJob }
{
    check_head(alloc, table, node)?;
    let names = read_parties(alloc, table)?;
    check_rest(alloc, table, &names)?;
    Ok(job_of(alloc, table, names)?)
}

/// The job that the bytes of a job's file stand for, or the first fault in the order of `JobFault`'s table. For a node,
/// hosts and a port must be there.
#[tactic(auto, unfolding(crate::specs::Faults::job_in))]
pub fn read_job(alloc: Global, bytes: &[u8], node: bool) -> Result<Job, JobFault>
    ensures job { MatchResult result (λ job. job_in node bytes.now ≡ Ok (job_view job))
        (λ fault. fault ≢ Memory → job_in node bytes.now ≡ Err fault) }
    ensures facts { IfOk result IsJob }
{
    match document(alloc, bytes)? {
        Some(table) => read_table(alloc, &table, node),
        None => Err(JobFault::NotToml),
    }
}
