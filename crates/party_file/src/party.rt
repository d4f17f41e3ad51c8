//! The file of a party.
ghost use Rattle.std.specs.Prelude.{◌≡◌, ◌⊎◌, ◌<◌, Some, None, Ok, Err, IfOk, IfErr};
ghost use Rattle.toml.specs.View.{table_view};
ghost use Rattle.list_laws.specs.Checks.{first_fault};
ghost use Rattle.party_file.specs.Table.{party_checks, party_given, party_in};
ghost use Rattle.party_file.specs.Forms.{form_of, FitsPlan};
ghost use Rattle.party_file.specs.declared.fault.PartyFault.TheVariants.{Memory};

use crate::data::PartyData;
use crate::fault::PartyFault;
use crate::fields::{check_counts, check_kinds, check_names, check_version};
use crate::inputs::read_inputs;
use crate::tapes::read_tapes;
use job_plan::Plan;
use std::alloc::Global;
use toml::Table;
use toml_fields::{document, items_at};

/// What the fields give.
fn read_fields(
    alloc: Global,
    table: &Table,
    numeric: &[bool],
    plan: &Plan,
    party: u32,
) -> Result<PartyData, PartyFault>
    requires { party < plan.now.parties }
    ensures passed { IfOk result (λ found.
        (first_fault (party_checks numeric.now plan.now party (table_view table.now)) ≡ None)
        × (form_of found ≡ party_given numeric.now plan.now party (table_view table.now))) }
    ensures fault { IfErr result (λ fault. (fault ≡ Memory)
        ⊎ (first_fault (party_checks numeric.now plan.now party (table_view table.now)) ≡ Some fault)) }
{
    check_version(table)?;
    check_names(alloc, table)?;
    check_kinds(table)?;
    check_counts(table, plan.sessions())?;
    let inputs = read_inputs(alloc, numeric, plan, party, items_at(table, "inputs"))?;
    let tapes = read_tapes(alloc, plan, party, table)?;
    Ok(PartyData { inputs, tapes })
}

/// What the bytes of the file of a party of the plan give: words for the input wires that the party gives, and a tape
/// for each session. The words of the sessions that are `numeric` are numbers.
///
/// # Errors
///
/// The first fault of the file, in the order of its checks; or `Memory`.
pub fn read_party(
    alloc: Global,
    bytes: &[u8],
    numeric: &[bool],
    plan: &Plan,
    party: u32,
) -> Result<PartyData, PartyFault>
    requires { party < plan.now.parties }
    ensures given { IfOk result (λ found. party_in numeric.now plan.now party bytes.now ≡ Ok (form_of found)) }
    ensures fits { IfOk result (λ found. FitsPlan plan.now party (form_of found)) }
    ensures fault { IfErr result (λ fault. (fault ≡ Memory)
        ⊎ (party_in numeric.now plan.now party bytes.now ≡ Err fault)) }
{
    match document(alloc, bytes)? {
        Some(table) => read_fields(alloc, &table, numeric, plan, party),
        None => Err(PartyFault::NotToml),
    }
}
