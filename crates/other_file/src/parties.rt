//! The inputs of the parties.
ghost use Rattle.std.specs.Prelude.{◌≡◌, ◌⊎◌, ◌<◌, Some, None, IfOk, IfErr, length, map, slice_index_or, []};
ghost use Rattle.toml.specs.View.{view, table_view};
ghost use Rattle.toml_fields.specs.Fields.{text_of};
ghost use Rattle.list_laws.specs.Lists.{listed};
ghost use Rattle.list_laws.specs.Checks.{first_fault};
ghost use Rattle.plan_model.specs.InputWords.{AreInputs, session_words, input_words};
ghost use Rattle.party_file.specs.Table.{sessions_given};
ghost use Rattle.party_file.specs.declared.fault.PartyFault.TheVariants as own;
ghost use Rattle.other_file.specs.Table.{text_checks, party_fault, party_inputs};
ghost use Rattle.other_file.specs.declared.fault.OtherFault.TheVariants.{Memory};

use crate::fault::{OtherFault, of_party};
use job_plan::{Inputs, Plan};
use party_file::{PartyFault, read_inputs};
use party_names::Names;
use std::alloc::{AllocError, Global};
use toml::{Table, Value};
use toml_fields::{Kind, has_field, is_misfit, items_at};

/// The inputs of a party in these texts, one for each session.
fn read_texts(
    alloc: Global,
    numeric: &[bool],
    plan: &Plan,
    party: u32,
    items: &[Value],
) -> Result<Vec<Vec<u64>>, PartyFault>
    ensures passed { let texts = map text_of (map view items.now) in IfOk result
        (λ words. (first_fault (text_checks numeric.now plan.now party texts) ≡ None)
        × (session_words words.items ≡ sessions_given numeric.now plan.now party texts)) }
    ensures fault { let texts = map text_of (map view items.now) in IfErr result
        (λ fault. (fault ≡ own.Memory) ⊎ (first_fault (text_checks numeric.now plan.now party texts) ≡ Some fault)) }
{
    let wanted = u64::from(plan.sessions());
    let found = items.len() as u64;
    if found != wanted {
        return Err(PartyFault::CountDiffers {
            session: None,
            wanted,
            found,
        });
    }
    read_inputs(alloc, numeric, plan, party, items)
}

/// Copies of the inputs of a party in the first run, by session.
fn kept(
    alloc: Global,
    plan: &Plan,
    inputs: &Inputs,
    party: u32,
) -> Result<Vec<Vec<u64>>, AllocError>
    requires inputs { AreInputs plan.now inputs.now }
    requires party { party < plan.now.parties }
    ensures { IfOk result (λ words. session_words words.items ≡ slice_index_or inputs.now party []) }
{
    let mut words = Vec::new(alloc);
    for session in 0..plan.sessions() {
        words.push(Vec::from_slice(alloc, inputs.of(party, session))?)?;
    }
    Ok(words)
}

/// The inputs of a party: those that this table gives, or where it doesn't name the party, those of the first run.
fn read_party(
    alloc: Global,
    numeric: &[bool],
    plan: &Plan,
    names: &Names,
    inputs: &Inputs,
    given: &Table,
    party: u32,
) -> Result<Vec<Vec<u64>>, OtherFault>
    requires names { length names.now ≡ plan.now.parties }
    requires inputs { AreInputs plan.now inputs.now }
    requires party { party < plan.now.parties }
    ensures passed { IfOk result (λ words.
        (party_fault numeric.now plan.now names.now (table_view given.now) party ≡ None)
        × (session_words words.items
        ≡ party_inputs numeric.now plan.now names.now inputs.now (table_view given.now) party)) }
    ensures fault { IfErr result (λ fault. (fault ≡ Memory)
        ⊎ (party_fault numeric.now plan.now names.now (table_view given.now) party ≡ Some fault)) }
{
    let name = names.name(party);
    if !has_field(given, name) {
        return Ok(kept(alloc, plan, inputs, party)?);
    }
    if is_misfit(given, name, Kind::Texts) {
        return Err(OtherFault::WrongKind { party });
    }
    match read_texts(alloc, numeric, plan, party, items_at(given, name)) {
        Ok(words) => Ok(words),
        Err(fault) => Err(of_party(party, fault)),
    }
}

/// The inputs of all parties.
pub(crate) fn read_parties(
    alloc: Global,
    numeric: &[bool],
    plan: &Plan,
    names: &Names,
    inputs: &Inputs,
    given: &Table,
) -> Result<Vec<Vec<Vec<u64>>>, OtherFault>
    requires names { length names.now ≡ plan.now.parties }
    requires inputs { AreInputs plan.now inputs.now }
    ensures passed { IfOk result (λ words.
        (first_fault (listed plan.now.parties (party_fault numeric.now plan.now names.now (table_view given.now)))
        ≡ None)
        × (input_words words.items
        ≡ listed plan.now.parties (party_inputs numeric.now plan.now names.now inputs.now (table_view given.now)))) }
    ensures fault { IfErr result (λ fault. (fault ≡ Memory)
        ⊎ (first_fault (listed plan.now.parties (party_fault numeric.now plan.now names.now (table_view given.now)))
        ≡ Some fault)) }
{
    let mut words = Vec::new(alloc);
    for party in 0..names.len() {
        words.push(read_party(alloc, numeric, plan, names, inputs, given, party)?)?;
    }
    Ok(words)
}
