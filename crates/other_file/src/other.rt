//! The file of other inputs.
ghost use Rattle.std.specs.Prelude.{◌≡◌, ◌⊎◌, Some, None, Ok, Err, IfOk, IfErr, length};
ghost use Rattle.toml.specs.View.{table_view};
ghost use Rattle.plan_model.specs.InputWords.{AreInputs, input_words};
ghost use Rattle.other_file.specs.Table.{other_fault, other_inputs, other_in};
ghost use Rattle.other_file.specs.Faults.{HasPartyBelow};
ghost use Rattle.other_file.specs.declared.fault.OtherFault.TheVariants.{Memory};

use crate::checks::{check_file, inputs_in};
use crate::fault::{OtherFault, of_file};
use crate::parties::read_parties;
use job_plan::{Inputs, Plan};
use party_file::PartyFault;
use party_names::Names;
use std::alloc::Global;
use toml::Table;
use toml_fields::document;

/// What the fields give.
fn read_fields(
    alloc: Global,
    table: &Table,
    numeric: &[bool],
    plan: &Plan,
    names: &Names,
    inputs: &Inputs,
) -> Result<Vec<Vec<Vec<u64>>>, OtherFault>
    requires names { length names.now ≡ plan.now.parties }
    requires inputs { AreInputs plan.now inputs.now }
    ensures passed { IfOk result (λ words. (other_fault numeric.now plan.now names.now (table_view table.now) ≡ None)
        × (input_words words.items ≡ other_inputs numeric.now plan.now names.now inputs.now (table_view table.now))) }
    ensures fault { IfErr result (λ fault. (fault ≡ Memory)
        ⊎ (other_fault numeric.now plan.now names.now (table_view table.now) ≡ Some fault)) }
{
    let empty = Table::new(alloc);
    let given = inputs_in(table, &empty);
    match check_file(alloc, table, given, names) {
        Ok(()) => read_parties(alloc, numeric, plan, names, inputs, given),
        Err(fault) => Err(of_file(fault)),
    }
}

/// The inputs of all parties that the bytes of a file give beside those of a first run: a party that the file doesn't
/// name keeps its inputs. The words of the sessions that are `numeric` are numbers.
///
/// # Errors
///
/// The first fault of the file, in the order of its checks; or `Memory`.
pub fn read_other(
    alloc: Global,
    bytes: &[u8],
    numeric: &[bool],
    plan: &Plan,
    names: &Names,
    inputs: &Inputs,
) -> Result<Inputs, OtherFault>
    requires names { length names.now ≡ plan.now.parties }
    requires inputs { AreInputs plan.now inputs.now }
    ensures given { IfOk result (λ found. other_in numeric.now plan.now names.now inputs.now bytes.now ≡ Ok found) }
    ensures fits { IfOk result (AreInputs plan.now) }
    ensures fault { IfErr result (λ fault. (fault ≡ Memory)
        ⊎ (other_in numeric.now plan.now names.now inputs.now bytes.now ≡ Err fault)) }
    ensures party { IfErr result (HasPartyBelow plan.now.parties) }
{
    let Some(table) = document(alloc, bytes)? else {
        return Err(OtherFault::File(PartyFault::NotToml));
    };
    let words = read_fields(alloc, &table, numeric, plan, names, inputs)?;
    Ok(Inputs::make(plan, words))
}
