//! What a job's file gives, where it has no fault.
ghost use Rattle.std.specs.Prelude.{◌≡◌, ◌<◌, ◌≤◌, ◌^◌, All, IfOk, nat_abs, None, map, length};
ghost use Rattle.party_set.specs.Parties.{Members};
ghost use Rattle.toml.specs.View.{view, table_view};
ghost use Rattle.toml_fields.specs.Fields.{text_of, texts_of, fields_of};
ghost use Rattle.job_file.specs.Forms.{party_of, owner_of, mask_of, session_form, session_forms, adversary_form, job_form, integer, texts, items};
ghost use Rattle.job_file.specs.Owners.{IsOwner};
ghost use Rattle.job_file.specs.Faults.{ring_fault, port_fault};
ghost use Rattle.job_file.specs.Jobs.{session_view, adversary_view, job_view, HasParties, IsSession, AreSessions, IsJob};
ghost use Rattle.job_file.specs.declared.field.JobField.TheVariants.{RingBits, Parties, Port, Session};

use crate::check::{
    is_there, is_version_two, layered_gates_in, own_views_in, products_in, short_frames_in,
};
use crate::field::JobField;
use crate::job::{Adversary, Job, JobSession};
use crate::layout::SessionLayout;
use crate::owner::{JobOwner, owner_in};
use crate::products::Products;
use crate::session::fields_or;
use crate::texts::layout_of;
use circuit_model::CircuitLayout;
use job_limits::MOST_SESSIONS;
use mpc_ring::Ring;
use outer_io::Hosts;
use party_names::{NameText, Names};
use party_set::{Group, MOST_PARTIES, group_of_mask, with_party};
use std::alloc::{AllocError, Global};
use toml::{Table, Value};
use toml_fields::{integer_at, items_at, items_of, text_at, text_of};

/// The party of this name, or 0.
fn party_of(names: &Names, name: &str) -> u32
    ensures is { result ≡ party_of names.now name.now }
    ensures within { result < length names.now }
{
    names.recall();
    names.number(name).unwrap_or(0)
}

/// The owner that this text tells in a session, or the first party.
fn owner_of(version_two: bool, names: &Names, session: u32, text: &str) -> JobOwner
    ensures is { result ≡ owner_of version_two names.now session text.now }
    ensures within { IsOwner (length names.now) session result }
{
    names.recall();
    owner_in(version_two, names, session, text).unwrap_or(JobOwner::Party(0))
}

fn owners_of(
    alloc: Global,
    owners: &[Value],
    version_two: bool,
    session: u32,
    names: &Names,
) -> Result<Vec<JobOwner>, AllocError>
    ensures is { IfOk result (λ told. told.items
        ≡ map (owner_of version_two names.now session) (map text_of (map view owners.now))) }
    ensures within { IfOk result (λ told. All (IsOwner (length names.now) session) told.items) }
{
    let mut told = Vec::new(alloc);
    for owner in owners {
        told.push(owner_of(version_two, names, session, text_of(owner)))?;
    }
    Ok(told)
}

fn mask_of(readers: &[Value], names: &Names) -> u32
    ensures is { result ≡ mask_of names.now (map text_of (map view readers.now)) }
    ensures below { result < 2 ^ length names.now }
{
    names.recall();
    let mut mask = 0;
    for reader in readers {
        mask = with_party(mask, party_of(names, text_of(reader)));
    }
    mask
}

fn group_of(readers: &[Value], names: &Names) -> Group
    ensures { result ≡ record {
      parties = length names.now;
      mask = mask_of names.now (map text_of (map view readers.now));
    } }
{
    let parties = names.len();
    group_of_mask(mask_of(readers, names), parties)
}

fn groups_of(alloc: Global, values: &[Value], names: &Names) -> Result<Vec<Group>, AllocError>
    ensures is { IfOk result (λ groups. map (λ (group : Members). group.mask) groups.items
        ≡ map (mask_of names.now) (map texts_of (map view values.now))) }
    ensures parties { IfOk result (λ groups. All (λ (group : Members). group.parties ≡ length names.now) groups.items) }
{
    let mut groups = Vec::new(alloc);
    for readers in values {
        groups.push(group_of(items_of(readers), names))?;
    }
    Ok(groups)
}

fn copy_of(alloc: Global, text: &str) -> Result<NameText, AllocError>
    ensures { IfOk result (λ copy. copy ≡ text.now) }
{
    Ok(NameText::of(String::from_str(alloc, text)?))
}

#[tactic(auto, unfolding(crate::specs::Forms::session_form, toml_fields::specs::Fields::texts_at))]
fn session_of(
    alloc: Global,
    table: &Table,
    version_two: bool,
    number: u32,
    names: &Names,
) -> Result<JobSession, AllocError>
    ensures form { IfOk result (λ session. session_view session
        ≡ session_form version_two names.now number (table_view table.now)) }
    ensures parties { IfOk result (IsSession (length names.now) number) }
{
    let circuit = copy_of(alloc, text_at(table, JobField::Circuit.text()))?;
    let layout = layout_of(version_two, text_at(table, JobField::Layout.text())).unwrap_or(
        SessionLayout::Gates(CircuitLayout::Ring),
    );
    let products = products_in(table).unwrap_or(Products::Direct);
    let layered_gates = layered_gates_in(table).unwrap_or(false);
    let owners = items_at(table, JobField::Owners.text());
    let owners = owners_of(alloc, owners, version_two, number, names)?;
    let readers = groups_of(alloc, items_at(table, JobField::Readers.text()), names)?;
    Ok(JobSession {
        circuit,
        layout,
        products,
        layered_gates,
        owners,
        readers,
    })
}

fn sessions_of(
    alloc: Global,
    tables: &[Value],
    version_two: bool,
    names: &Names,
) -> Result<Vec<JobSession>, AllocError>
    requires { length tables.now ≤ MOST_SESSIONS }
    ensures form { IfOk result (λ sessions. map session_view sessions.items
        ≡ session_forms version_two names.now (map fields_of (map view tables.now))) }
    ensures parties { IfOk result (λ sessions. AreSessions (length names.now) sessions.items) }
    ensures count { IfOk result (λ sessions. length sessions.items ≡ length tables.now) }
{
    let empty = Table::new(alloc);
    let mut sessions = Vec::new(alloc);
    for (number, item) in tables.iter().enumerate() {
        let table = fields_or(item, &empty);
        sessions.push(session_of(alloc, table, version_two, number as u32, names)?)?;
    }
    Ok(sessions)
}

fn hosts_of(alloc: Global, hosts: &[Value]) -> Result<Hosts, AllocError>
    ensures { IfOk result (λ texts. texts ≡ map text_of (map view hosts.now)) }
{
    let mut texts = Vec::new(alloc);
    for host in hosts {
        let text = String::from_str(alloc, text_of(host))?;
        texts.push(text)?;
    }
    Ok(Hosts::of(texts))
}

#[tactic(auto, unfolding(crate::specs::Faults::ring_fault))]
fn ring_of(table: &Table) -> Ring
    requires { ring_fault (table_view table.now) ≡ None }
    ensures is { result ≡ nat_abs (integer RingBits (table_view table.now)) }
    ensures some { 0 < result }
    ensures few { result ≤ 64 }
{
    let bits = integer_at(table, JobField::RingBits.text());
    Ring::new(bits as u32).unwrap()
}

#[tactic(auto, unfolding(crate::specs::Faults::port_fault))]
fn port_of(table: &Table) -> u16
    requires { port_fault (table_view table.now) ≡ None }
    ensures { result ≡ nat_abs (integer Port (table_view table.now)) }
{
    if is_there(table, JobField::Port) {
        integer_at(table, JobField::Port.text()) as u16
    } else {
        0
    }
}

#[tactic(auto, unfolding(crate::specs::Forms::adversary_form))]
fn adversary_of(alloc: Global, table: &Table, names: &Names) -> Result<Adversary, AllocError>
    requires { names.now ≡ texts Parties (table_view table.now) }
    ensures form { IfOk result (λ told.
        adversary_view told ≡ adversary_form (table_view table.now)) }
    ensures parties { IfOk result (HasParties (length names.now)) }
{
    if is_version_two(table) {
        let groups = groups_of(alloc, items_at(table, JobField::Tolerated.text()), names)?;
        return Ok(Adversary::Tolerated(groups));
    }
    let formula = copy_of(alloc, text_at(table, JobField::Formula.text()))?;
    Ok(Adversary::Formula(formula))
}

/// The job of a table without a fault.
#[tactic(auto, unfolding(crate::specs::Forms::job_form, toml_fields::specs::Fields::texts_at))]
pub fn job_of(alloc: Global, table: &Table, names: Names) -> Result<Job, AllocError>
    requires ring { ring_fault (table_view table.now) ≡ None }
    requires port { port_fault (table_view table.now) ≡ None }
    requires names { names ≡ texts Parties (table_view table.now) }
    requires some { 1 ≤ length (items Session (table_view table.now)) }
    requires few { length (items Session (table_view table.now)) ≤ MOST_SESSIONS }
    ensures form { IfOk result (λ job. job_view job ≡ job_form (table_view table.now)) }
    ensures facts { IfOk result IsJob }
{
    let ring = ring_of(table);
    let adversary = adversary_of(alloc, table, &names)?;
    let hosts = hosts_of(alloc, items_at(table, JobField::Hosts.text()))?;
    let port = port_of(table);
    let short_frames = short_frames_in(table).unwrap_or(false);
    let own_views = own_views_in(table).unwrap_or(false);
    let tables = items_at(table, JobField::Session.text());
    let sessions = sessions_of(alloc, tables, is_version_two(table), &names)?;
    names.recall();
    Ok(Job {
        ring,
        names,
        adversary,
        hosts,
        port,
        short_frames,
        own_views,
        sessions,
    })
}
