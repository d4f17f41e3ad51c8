//! Rows of the table of faults that speak of the top table.
ghost use Rattle.std.specs.Prelude.{◌≡◌, ◌≢◌, ◌≤◌, ◌==◌, OnOk, ◌&&◌, min, map, not, Some, None, position, length, MatchResult};
ghost use Rattle.std.specs.Option.{option_map};
ghost use Rattle.toml.specs.View.{view, table_view};
ghost use Rattle.toml_fields.specs.Fields.{text_of, texts_of};
ghost use Rattle.job_file.specs.Answers.{TellsFault};
ghost use Rattle.job_file.specs.Names.{is_host};
ghost use Rattle.job_file.specs.Forms.{texts};
ghost use Rattle.list_laws.specs.Checks.{◌answers◌};
ghost use Rattle.job_file.specs.Faults.{version_fault, fields_fault, ring_fault, parties_fault, groups_fault, adversary_fault, count_fault, hosts_fault, port_fault, frames_fault, views_fault, is_there};
ghost use Rattle.job_file.specs.declared.field.JobField.TheVariants.{Parties, Hosts};
ghost use Rattle.job_file.specs.declared.fault.JobFault.TheVariants.{Memory, BadHost};

use crate::check::{
    adversary_field, check, check_for_node, check_optional, check_required, is_there,
    is_version_two, own_views_in, short_frames_in,
};
use crate::fault::JobFault;
use crate::field::JobField;
use crate::limits::{LAST_PORT, MOST_TOLERATED};
use crate::parties::bad_in_lists;
use crate::texts::is_host;
use job_limits::MOST_SESSIONS;
use party_names::{Names, NamesFault, read_names};
use std::alloc::Global;
use toml::{Table, Value};
use toml_fields::{integer_at, items_at, text_of, texts_at};

/// Checks the version: missing, no integer, or neither 1 nor 2.
#[tactic(auto, unfolding(crate::specs::Faults::version_fault))]
pub fn check_version(table: &Table) -> Result<(), JobFault>
    ensures { TellsFault result (version_fault (table_view table.now)) }
{
    check_required(table, None, JobField::Version)?;
    let found = integer_at(table, JobField::Version.text());
    check(found < 1 || found > 2, JobFault::Version { found })
}

/// Checks that each field that the version or a node needs is there, and of its kind.
#[tactic(auto, unfolding(crate::specs::Faults::fields_fault))]
pub fn check_fields(table: &Table, node: bool) -> Result<(), JobFault>
    ensures { TellsFault result (fields_fault node (table_view table.now)) }
{
    check_required(table, None, JobField::RingBits)?;
    check_required(table, None, JobField::Parties)?;
    check_required(table, None, adversary_field(table))?;
    check_for_node(table, node, JobField::Hosts)?;
    check_for_node(table, node, JobField::Port)?;
    check_optional(table, None, JobField::Frames)?;
    check_optional(table, None, JobField::Views)?;
    check_required(table, None, JobField::Session)
}

/// Checks the number of ring bits, 1 to 64.
#[tactic(auto, unfolding(crate::specs::Faults::ring_fault))]
pub fn check_ring(table: &Table) -> Result<(), JobFault>
    ensures { TellsFault result (ring_fault (table_view table.now)) }
{
    let bits = integer_at(table, JobField::RingBits.text());
    check(bits < 1 || bits > 64, JobFault::BadRing { bits })
}

/// The names of the parties.
pub fn read_parties(alloc: Global, table: &Table) -> Result<Names, JobFault>
    ensures { MatchResult result
        (λ names. (names ≡ texts Parties (table_view table.now)) × (parties_fault (table_view table.now) ≡ None))
        (λ fault. fault ≢ Memory → parties_fault (table_view table.now) ≡ Some fault) }
{
    let texts = texts_at(alloc, table, JobField::Parties.text())?;
    match read_names(alloc, &texts) {
        Ok(names) => Ok(names),
        Err(fault) => Err(of_names(fault)),
    }
}

fn of_names(fault: NamesFault) -> JobFault
    ensures names { result ≢ Memory → result ≡ JobFault.Names fault }
    ensures memory { fault ≡ NamesFault.Memory → result ≡ Memory }
{
    match fault {
        NamesFault::Memory => JobFault::Memory,
        fault => JobFault::Names { fault },
    }
}

/// Checks the tolerated groups, if the file lists them.
pub fn check_adversary(table: &Table, names: &Names) -> Result<(), JobFault>
    requires { names.now ≡ texts Parties (table_view table.now) }
    ensures { TellsFault result (adversary_fault (table_view table.now)) }
{
    if is_version_two(table) {
        check_tolerated(items_at(table, JobField::Tolerated.text()), names)
    } else {
        Ok(())
    }
}

#[tactic(auto, unfolding(crate::specs::Faults::groups_fault))]
fn check_tolerated(groups: &[Value], names: &Names) -> Result<(), JobFault>
    ensures { TellsFault result (groups_fault names.now (map texts_of (map view groups.now))) }
{
    if groups.len() > MOST_TOLERATED {
        return Err(JobFault::TooManyTolerated {
            count: groups.len() as u64,
        });
    }
    match bad_in_lists(groups, names) {
        Some((value, at)) => Err(JobFault::BadTolerated {
            value: value as u32,
            at: at as u64,
        }),
        None => Ok(()),
    }
}

/// Checks that there are 1 to 16 sessions.
#[tactic(auto, unfolding(crate::specs::Faults::count_fault))]
pub fn check_count(count: usize) -> Result<(), JobFault>
    ensures told { TellsFault result (count_fault count) }
    ensures some { OnOk result (1 ≤ count) }
    ensures few { OnOk result (count ≤ MOST_SESSIONS) }
{
    check(
        count == 0 || count > MOST_SESSIONS,
        JobFault::SessionCount {
            count: count as u64,
        },
    )
}

/// Checks that there is a host for each party, if there are hosts.
pub fn check_hosts(table: &Table, parties: u32) -> Result<(), JobFault>
    requires { parties ≡ length (texts Parties (table_view table.now)) }
    ensures { TellsFault result (hosts_fault (table_view table.now)) }
{
    let hosts = items_at(table, JobField::Hosts.text());
    check_host_count(table, hosts.len(), parties as usize)?;
    check_host_texts(hosts)
}

fn check_host_count(table: &Table, hosts: usize, parties: usize) -> Result<(), JobFault>
    ensures { TellsFault result ((is_there Hosts (table_view table.now) && not (hosts == parties)) answers BadHost
        (min hosts parties)) }
{
    check(
        is_there(table, JobField::Hosts) && hosts != parties,
        JobFault::BadHost {
            at: hosts.min(parties) as u64,
        },
    )
}

fn check_host_texts(hosts: &[Value]) -> Result<(), JobFault>
    ensures { TellsFault result (option_map (λ at. BadHost at)
        (position (λ host. not (is_host (text_of (view host)))) hosts.now)) }
{
    match bad_host(hosts) {
        Some(at) => Err(JobFault::BadHost { at: at as u64 }),
        None => Ok(()),
    }
}

fn bad_host(hosts: &[Value]) -> Option<usize>
    ensures { result ≡ position (λ host. not (is_host (text_of (view host)))) hosts.now }
{
    hosts.iter().position(|host| !is_host(text_of(host)))
}

/// Checks the port, where one is told: 1 to 65392.
#[tactic(auto, unfolding(crate::specs::Faults::port_fault))]
pub fn check_port(table: &Table) -> Result<(), JobFault>
    ensures { TellsFault result (port_fault (table_view table.now)) }
{
    let port = integer_at(table, JobField::Port.text());
    check(
        is_there(table, JobField::Port) && (port < 1 || port > i64::from(LAST_PORT)),
        JobFault::BadPort { port },
    )
}

/// Checks the form of frames, where one is told: named or short.
#[tactic(auto, unfolding(crate::specs::Faults::frames_fault))]
pub fn check_frames(table: &Table) -> Result<(), JobFault>
    ensures { TellsFault result (frames_fault (table_view table.now)) }
{
    check(short_frames_in(table).is_none(), JobFault::BadFrames)
}

/// Checks whether nodes write views, where it is told: none or own.
#[tactic(auto, unfolding(crate::specs::Faults::views_fault))]
pub fn check_views(table: &Table) -> Result<(), JobFault>
    ensures { TellsFault result (views_fault (table_view table.now)) }
{
    check(own_views_in(table).is_none(), JobFault::BadViews)
}
