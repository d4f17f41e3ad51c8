//! What sessions keep for later ones.
ghost use Rattle.std.specs.Prelude.{◌≡◌, ℕ, ◌<◌, ◌≤◌, ◌++◌, All, IfOk, OnOk, [], length, map};
ghost use Rattle.std.specs.Global.{Vec};
ghost use Rattle.list_laws.specs.Lists.{joined, listed};
ghost use Rattle.session_slots.specs.declared.values.KeptWire.{KeptWire};
ghost use Rattle.session_slots.specs.Sessions.{owners, session_at};
ghost use Rattle.session_slots.specs.Carries.{kept_for, kept_from, AllFit, first_outputs, keeping};
ghost use Rattle.session_slots.specs.SoundSessions.{IsSoundSession, IsWired};

use crate::session_part::SessionPart;
use job_limits::MOST_SESSIONS;
use session_slots::{KeptWire, Source};
use std::alloc::{AllocError, Global};

/// The same sessions, each of which keeps what those behind it carry from it, in the place of what it kept.
pub fn keep_carried(alloc: Global, parts: Vec<SessionPart>) -> Result<Vec<SessionPart>, AllocError>
    requires few { length parts.items ≤ MOST_SESSIONS }
    requires wired { All IsWired parts.items }
    requires fit { AllFit parts.items }
    ensures made { IfOk result (λ made. made.items ≡ keeping parts.items) }
    ensures sound { (parties : ℕ) → All (IsSoundSession parties) parts.items
        → IfOk result (λ made. All (IsSoundSession parties) made.items) }
{
    let kept = carried_wires(alloc, &parts)?;
    let mut list = Vec::with_capacity(alloc, parts.len())?;
    for (part, wires) in parts.into_iter().zip(kept) {
        list.push(part.keep(alloc, wires)?)?;
    }
    Ok(list)
}

// What the sessions carry from each of them.
fn carried_wires(alloc: Global, parts: &[SessionPart]) -> Result<Vec<Vec<KeptWire>>, AllocError>
    requires few { length parts.now ≤ MOST_SESSIONS }
    requires wired { All IsWired parts.now }
    requires fit { AllFit parts.now }
    ensures { IfOk result (λ kept. map (λ (wires : Vec KeptWire). wires.items) kept.items
        ≡ listed (length parts.now) (λ r. kept_from r parts.now)) }
{
    let mut kept = Vec::with_capacity(alloc, parts.len())?;
    for r in 0..parts.len() as u32 {
        kept.push(carried_from(alloc, parts, r)?)?;
    }
    Ok(kept)
}

// What the sessions carry from session r, which those behind it may.
fn carried_from(alloc: Global, parts: &[SessionPart], r: u32) -> Result<Vec<KeptWire>, AllocError>
    requires few { length parts.now ≤ MOST_SESSIONS }
    requires wired { All IsWired parts.now }
    requires fit { AllFit parts.now }
    requires session { r < length parts.now }
    ensures { IfOk result (λ kept. kept.items ≡ kept_from r parts.now) }
{
    let firsts = first_outputs(alloc, &parts[r as usize])?;
    let mut kept = Vec::new(alloc);
    for s in r + 1..parts.len() as u32 {
        push_carried(parts, r, &firsts, s, &mut kept)?;
    }
    Ok(kept)
}

// Adds what session s carries from session r, whose output values begin at these wires.
fn push_carried(
    parts: &[SessionPart],
    r: u32,
    firsts: &[u32],
    s: u32,
    kept: &mut Vec<KeptWire>,
) -> Result<(), AllocError>
    requires wired { All IsWired parts.now }
    requires fit { AllFit parts.now }
    requires firsts { firsts.now ≡ first_outputs (session_at parts.now r) }
    requires session { s < length parts.now }
    ensures { OnOk result (kept.new.items ≡ kept.old.items
        ++ joined (length (owners (session_at parts.now s))) (kept_for parts.now r s)) }
{
    let part = &parts[s as usize];
    for wire in 0..part.input_wires() as u32 {
        match part.source(wire) {
            Source::Earlier {
                session,
                value,
                wire: place,
            } if session == r => kept.push(KeptWire {
                session: s,
                wire,
                output: firsts[value as usize] + place,
            })?,
            Source::Earlier { .. } => {}
            Source::Given(_party) => {}
        }
    }
    Ok(())
}

// The first output wire of each output value, counted from the first of all.
fn first_outputs(alloc: Global, part: &SessionPart) -> Result<Vec<u32>, AllocError>
    requires { IsWired part.now }
    ensures { IfOk result (λ firsts. firsts.items ≡ first_outputs part.now) }
{
    let mut firsts = Vec::with_capacity(alloc, part.outputs().len())?;
    let mut first = 0;
    for value in part.outputs() {
        firsts.push(first)?;
        first += value.width;
    }
    Ok(firsts)
}
