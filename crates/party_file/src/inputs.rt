//! The inputs of a party.
ghost use Rattle.std.specs.Prelude.{◌≡◌, ◌⊎◌, ◌<◌, ◌≤◌, [], Some, None, IfOk, IfErr, length, map};
ghost use Rattle.toml.specs.View.{view};
ghost use Rattle.toml_fields.specs.Fields.{text_of};
ghost use Rattle.plan_model.specs.InputWords.{session_words};
ghost use Rattle.list_laws.specs.Checks.{first_fault};
ghost use Rattle.party_file.specs.Table.{numbers_in, session_checks, session_given, sessions_given, wire_checks, input_checks};
ghost use Rattle.party_file.specs.declared.fault.PartyFault.TheVariants.{Memory};

use crate::fault::PartyFault;
use crate::number_inputs::{given_widths, read_value_numbers};
use crate::numbers::{check_count, check_ring, read_numbers};
use job_plan::Plan;
use mpc_ring::Ring;
use std::alloc::Global;
use toml::Value;
use toml_fields::text_of;
use value_words::is_numeric;

/// The inputs of a session in which the text has a word for each of `wanted` wires.
#[tactic(auto, unfolding(crate::specs::Table::wire_checks))]
fn read_wire_words(
    alloc: Global,
    ring: Ring,
    wanted: u64,
    session: u32,
    text: &str,
) -> Result<Vec<u64>, PartyFault>
    ensures passed { IfOk result (λ words. (first_fault (wire_checks ring wanted session text.now) ≡ None)
        × (words.items ≡ numbers_in text.now)) }
    ensures fault { IfErr result (λ fault. (fault ≡ Memory)
        ⊎ (first_fault (wire_checks ring wanted session text.now) ≡ Some fault)) }
{
    let words = read_numbers(alloc, Some(session), text)?;
    check_ring(ring, Some(session), &words)?;
    check_count(session, wanted, &words)?;
    Ok(words)
}

/// The words of the wires that the party gives in this session, whose text has a number for each lane of each value,
/// or a word for each wire.
fn read_session(
    alloc: Global,
    numeric: &[bool],
    plan: &Plan,
    party: u32,
    session: u32,
    text: &str,
) -> Result<Vec<u64>, PartyFault>
    requires { session < length plan.now.sessions }
    ensures passed { IfOk result (λ words.
        (first_fault (session_checks numeric.now plan.now party session text.now) ≡ None)
        × (words.items ≡ session_given numeric.now plan.now party session text.now)) }
    ensures fault { IfErr result (λ fault. (fault ≡ Memory)
        ⊎ (first_fault (session_checks numeric.now plan.now party session text.now) ≡ Some fault)) }
{
    let part = plan.part(session);
    if is_numeric(numeric, session) {
        let widths = given_widths(alloc, part, party)?;
        return read_value_numbers(alloc, plan.ring(), &widths, session, text);
    }
    let wanted = part.owned(party) as u64;
    read_wire_words(alloc, plan.ring(), wanted, session, text)
}

/// The inputs of the party, session by session.
pub fn read_inputs(
    alloc: Global,
    numeric: &[bool],
    plan: &Plan,
    party: u32,
    items: &[Value],
) -> Result<Vec<Vec<u64>>, PartyFault>
    requires { length items.now ≡ length plan.now.sessions }
    ensures passed { let texts = map text_of (map view items.now) in IfOk result
        (λ inputs. (first_fault (input_checks numeric.now plan.now party texts) ≡ None)
        × (session_words inputs.items ≡ sessions_given numeric.now plan.now party texts)) }
    ensures fault { let texts = map text_of (map view items.now) in IfErr result
        (λ fault. (fault ≡ Memory)
        ⊎ (first_fault (input_checks numeric.now plan.now party texts) ≡ Some fault)) }
{
    let mut inputs = Vec::new(alloc);
    for session in 0..plan.sessions() {
        let text = text_of(&items[session as usize]);
        let words = read_session(alloc, numeric, plan, party, session, text)?;
        inputs.push(words)?;
    }
    Ok(inputs)
}
