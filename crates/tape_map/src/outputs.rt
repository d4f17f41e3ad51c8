//! Whether a group's members read the same outputs.
ghost use Rattle.std.specs.Prelude.{◌≡◌, ◌<◌, length, slice_index};
ghost use Rattle.list_laws.specs.Lists.{joined, listed};
ghost use Rattle.list_laws.specs.Checks.{first_fault};
ghost use Rattle.plan_model.specs.InputWords.{session_words};
ghost use Rattle.session_slots.specs.Sessions.{readers};
ghost use Rattle.plan_model.specs.Plans.{session};
ghost use Rattle.wire_tables.specs.WireTables.{value_at};
ghost use Rattle.tape_map.specs.MapFaults.{AreValues, output_check, value_checks};

use crate::differences::{read_differ, reads};
use crate::fault::MapFault;
use job_plan::Plan;
use party_set::Group;

/// The first output wire that a member reads, and on which it is to read another value, where the wires of the sessions
/// have these values with the inputs and with the others.
pub(crate) fn output_fault(
    plan: &Plan,
    group: Group,
    first: &[Vec<u64>],
    second: &[Vec<u64>],
) -> Option<MapFault>
    requires group { group.parties ≡ plan.now.parties }
    requires first { AreValues plan.now (session_words first.now) }
    requires second { AreValues plan.now (session_words second.now) }
    ensures { result ≡ first_fault (joined (length plan.now.sessions) (λ s. value_checks plan.now group.mask s
        (value_at (session_words first.now) s) (value_at (session_words second.now) s))) }
{
    plan.recall();
    for s in 0..plan.sessions() {
        if let Some(fault) = session_fault(
            plan,
            group,
            s,
            &first[s as usize],
            &second[s as usize],
        ) {
            return Some(fault);
        }
    }
    None
}

// The first one in session `s`, whose wires have these values with the inputs and with the others.
fn session_fault(
    plan: &Plan,
    group: Group,
    s: u32,
    first: &[u64],
    second: &[u64],
) -> Option<MapFault>
    requires group { group.parties ≡ plan.now.parties }
    requires session { s < length plan.now.sessions }
    requires first { length first.now ≡ (session plan.now s).wires }
    requires second { length second.now ≡ (session plan.now s).wires }
    ensures { result ≡ first_fault
        (value_checks plan.now group.mask s (slice_index first.now) (slice_index second.now)) }
{
    plan.recall();
    let part = plan.part(s);
    for o in 0..part.output_wires() as u32 {
        let wire = part.output_wire(o) as usize;
        if let Some(fault) = reader_fault(plan, group, s, o, first[wire], second[wire]) {
            return Some(fault);
        }
    }
    None
}

// The first member that reads output wire `o`, where its two values differ.
fn reader_fault(
    plan: &Plan,
    group: Group,
    s: u32,
    o: u32,
    first: u64,
    second: u64,
) -> Option<MapFault>
    requires group { group.parties ≡ plan.now.parties }
    requires session { s < length plan.now.sessions }
    requires output { o < length (readers (session plan.now s)) }
    ensures { result ≡ first_fault
        (listed plan.now.parties (output_check plan.now group.mask s first second o)) }
{
    let parties = plan.parties();
    let part = plan.part(s);
    let wire = part.output_wire(o);
    for recipient in 0..parties {
        let reads = reads(part, o, recipient);
        if read_differ(group.has(recipient), reads, first, second) {
            return Some(MapFault::OutputDiffers {
                session: s,
                wire,
                recipient,
                first,
                second,
            });
        }
    }
    None
}
