//! The check of a written view.
ghost use Rattle.std.specs.Prelude.{◌≡◌, ◌⊎◌, ℕ, ◌+◌, ◌<◌, ◌∷◌, [], MatchResult, IfOk, IfErr, OnOk, Ok, Err, length, slice_index, slice_index_or};
ghost use Rattle.plan_model.specs.InputWords.{session_words};
ghost use Rattle.list_laws.specs.Lists.{only_if};
ghost use Rattle.plan_model.specs.Messages.{session_messages, messages};
ghost use Rattle.share_world.specs.Laws.{IsWhole};
ghost use Rattle.share_world.specs.Worlds.{touches, view};
ghost use Rattle.wire_tables.specs.SlotRows.{IsSlotAt};
ghost use Rattle.wire_tables.specs.WireTables.{AreCarried, world_given, world_of};
ghost use Rattle.view_check.specs.Audits.{IsAudit, audited_world, seen_at, seen_by};
ghost use Rattle.view_check.specs.Views.{verdict, Passes, Stops};
ghost use Rattle.view_check.specs.Laws.{IsView, IsWrongWord};
ghost use Rattle.view_check.specs.declared.fault.CheckFault.TheVariants.{Memory, WrongWord};

use crate::fault::CheckFault;
use crate::head::head_group;
use crate::text_lines::TextLines;
use crate::view_lines::ViewLines;
use job_plan::{Inputs, Key, Plan};
use party_names::Names;
use party_set::Group;
use std::alloc::Global;
use view_text::touches;
use wire_tables::{
    CarriedRows, SlotAt, SummandTable, WorldData, first_places, pass_slot, slot_rows,
};

// Takes the line of a message with this word, where a member of the group sends or receives it.
fn check_message(
    rest: &mut ViewLines<'_>,
    names: &Names,
    group: Group,
    key: Key,
    word: u64,
) -> Result<(), CheckFault>
    requires group { group.parties ≡ length names.now }
    requires sender { key.sender < length names.now }
    requires receiver { key.receiver < length names.now }
    ensures { MatchResult result
        (λ _. Passes names.now (only_if (touches group.mask key) ((key, word) ∷ [])) rest.old rest.new)
        (λ fault. Stops names.now (only_if (touches group.mask key) ((key, word) ∷ [])) rest.old fault) }
{
    if !touches(group, key) {
        return Ok(());
    }
    rest.check_message(names, key, word)
}

// A run that is audited: what it goes by, the names of its parties, and the group whose view is checked.
#[derive(Clone, Copy)]
struct Audited<'a> {
    world: WorldData<'a>,
    names: &'a Names,
    group: Group,
}

// The word of a message: of its summand, in its sender's row.
fn word_of(rows: &[Vec<u64>], key: Key) -> u64
    requires sender { key.sender < length rows.now }
    requires share { key.share < length (slice_index_or (session_words rows.now) key.sender []) }
    ensures { result ≡ slice_index (slice_index_or (session_words rows.now) key.sender []) key.share }
{
    rows[key.sender as usize][key.share as usize]
}

// Takes the lines of what the group sees in a slot.
fn check_slot(
    alloc: Global,
    run: &Audited<'_>,
    at: &SlotAt<'_>,
    rest: &mut ViewLines<'_>,
) -> Result<(), CheckFault>
    requires run { IsAudit run.now }
    requires at { IsSlotAt (audited_world run.now) at.now }
    ensures { MatchResult result
        (λ _. Passes run.now.names.now (seen_at run.now at.now.session at.now.slot) rest.old rest.new)
        (λ fault. (fault ≡ Memory)
        ⊎ Stops run.now.names.now (seen_at run.now at.now.session at.now.slot) rest.old fault) }
{
    let plan = run.world.plan;
    let (s, k) = (at.session, at.slot);
    let transfers = plan.transfers(plan.pattern(s, k));
    if transfers.is_empty() {
        return Ok(());
    }
    let rows = slot_rows(alloc, &run.world, at)?;
    for i in 0..transfers.len() {
        let key = transfers[i].named(s, k);
        check_message(rest, run.names, run.group, key, word_of(&rows, key))?;
    }
    Ok(())
}

// Takes the lines of what the group sees in session `s`. `carried` has what is carried of the sessions before, and what
// is carried of this one is added there.
fn check_session(
    alloc: Global,
    run: &Audited<'_>,
    carried: &mut CarriedRows,
    s: u32,
    rest: &mut ViewLines<'_>,
) -> Result<(), CheckFault>
    requires run { IsAudit run.now }
    requires carried { AreCarried (audited_world run.now) s carried.old }
    requires session { s < length run.now.world.plan.now.sessions }
    ensures lines { MatchResult result
        (λ _. Passes run.now.names.now (seen_by run.now (session_messages run.now.world.plan.now s))
        rest.old rest.new)
        (λ fault. (fault ≡ Memory) ⊎ Stops run.now.names.now
        (seen_by run.now (session_messages run.now.world.plan.now s)) rest.old fault) }
    ensures carried { OnOk result (AreCarried (audited_world run.now) (s + 1) carried.new) }
{
    let plan = run.world.plan;
    let table = SummandTable::make(alloc, &run.world, carried, s)?;
    let mut places = first_places(alloc, plan, s)?;
    for k in 0..plan.slots(s) {
        let at = SlotAt {
            session: s,
            slot: k,
            table: &table,
            places: &places,
        };
        check_slot(alloc, run, &at, rest)?;
        pass_slot(plan, s, k, &mut places);
    }
    Ok(())
}

// Takes the lines of all that the group sees.
fn check_messages(
    alloc: Global,
    run: &Audited<'_>,
    rest: &mut ViewLines<'_>,
) -> Result<(), CheckFault>
    requires run { IsAudit run.now }
    ensures { MatchResult result
        (λ _. Passes run.now.names.now (seen_by run.now (messages run.now.world.plan.now)) rest.old rest.new)
        (λ fault. (fault ≡ Memory)
        ⊎ Stops run.now.names.now (seen_by run.now (messages run.now.world.plan.now)) rest.old fault) }
{
    let mut carried = CarriedRows::new(alloc, run.world.plan)?;
    for s in 0..run.world.plan.sessions() {
        check_session(alloc, run, &mut carried, s, rest)?;
    }
    Ok(())
}

// The verdict on a text.
fn judge(
    alloc: Global,
    world: &WorldData<'_>,
    names: &Names,
    text: &[u8],
) -> Result<u32, CheckFault>
    requires names { length names.now ≡ world.now.plan.now.parties }
    requires whole { IsWhole (world_of world.now) }
    ensures { MatchResult result
        (λ count. verdict names.now (view (world_of world.now)) text.now ≡ Ok count)
        (λ fault. (fault ≡ Memory) ⊎ (verdict names.now (view (world_of world.now)) text.now ≡ Err fault)) }
{
    let mut lines = TextLines::of(text);
    let Some(head) = lines.next_line() else {
        return Err(CheckFault::BadHead);
    };
    let Some(group) = head_group(alloc, head, names)? else {
        return Err(CheckFault::BadHead);
    };
    let mut rest = ViewLines::of(lines);
    let run = Audited {
        world: *world,
        names,
        group,
    };
    check_messages(alloc, &run, &mut rest)?;
    let found = rest.finish()?;
    Ok(found as u32)
}

/// How many messages the group of a text's first line sees, where the text has the lines of that group's view. `tapes`
/// has for each party the words that it draws, all sessions in order. It goes through the text once and through the
/// plan once, with the summands of one session at a time and of the wires that later ones carry.
///
/// # Errors
///
/// The first fault of the text: of its first line, and then line by line, each against the group's next message.
pub fn check(
    alloc: Global,
    plan: &Plan,
    inputs: &Inputs,
    tapes: &[Vec<u64>],
    names: &Names,
    text: &[u8],
) -> Result<u32, CheckFault>
    requires names { length names.now ≡ plan.now.parties }
    requires whole { IsWhole (world_given plan.now inputs.now tapes.now) }
    ensures verdict { MatchResult result
        (λ count. verdict names.now (view (world_given plan.now inputs.now tapes.now)) text.now ≡ Ok count)
        (λ fault. (fault ≡ Memory)
        ⊎ (verdict names.now (view (world_given plan.now inputs.now tapes.now)) text.now ≡ Err fault)) }
    ensures view { IfOk result
        (IsView names.now (view (world_given plan.now inputs.now tapes.now)) text.now) }
    ensures accepts { (count : ℕ)
        → IsView names.now (view (world_given plan.now inputs.now tapes.now)) text.now count
        → MatchResult result (λ found. found ≡ count) (λ fault. fault ≡ Memory) }
    ensures wrong { IfErr result (λ fault. (line wanted found : ℕ) → fault ≡ WrongWord line wanted found
        → IsWrongWord names.now (view (world_given plan.now inputs.now tapes.now)) text.now line wanted found) }
{
    names.recall();
    let world = WorldData {
        plan,
        inputs,
        tapes,
    };
    judge(alloc, &world, names, text)
}
