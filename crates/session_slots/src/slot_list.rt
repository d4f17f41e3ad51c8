//! What each slot of a session is of: told by its number in a direct session, and listed where products are prepared.
ghost use Rattle.std.specs.Prelude.{◌≡◌, ◌<◌, ◌++◌, [], ◌∷◌, IfOk, OnOk, map, length, true, false};
ghost use Rattle.list_laws.specs.Lists.{listed};
ghost use Rattle.session_slots.specs.Sessions.{gate_slots, mask_product_slots, mask_slots, owners, prepared_slots, readers, slot_list, turns_of_masks};
ghost use Rattle.session_slots.specs.Sessions.Slot.{Input, Output, Kept};
ghost use Rattle.session_slots.specs.SoundSessions.{slot_of_kind};
ghost use Rattle.session_slots.specs.Wirings.{IsWiring, session_in, prepared_in};

use crate::side::Side;
use crate::slot_content::SlotContent;
use crate::slot_kind::SlotKind;
use crate::wiring::Wiring;
use circuit_model::Gate;
use std::alloc::{AllocError, Global};

impl Wiring {
    ghost use Rattle.std.specs.Prelude.{◌≡◌, ◌+◌, ◌<◌, true, false, length};
    ghost use Rattle.session_slots.specs.Sessions.{has_product, is_gate, product_in, session_slot, session_slots};
    ghost use Rattle.session_slots.specs.Sessions.Slot.{At_gate};
    ghost use Rattle.session_slots.specs.SoundSessions.{slot_of_kind, Inside};
    ghost use Rattle.session_slots.specs.Wirings.{IsWiring, session_in};

    /// What slot `k` is of.
    pub fn slot_kind(&self, k: u32) -> SlotKind
        requires wiring { IsWiring self.now }
        requires within { k < session_slots (session_in self.now) }
        ensures is { slot_of_kind result ≡ session_slot (session_in self.now) k }
        ensures inside { Inside (session_in self.now) (slot_of_kind result) }
    {
        if self.prepared {
            return self.kinds[k as usize];
        }
        let inputs = self.owners.len() as u32;
        let gates = self.gates.len() as u32;
        if k < inputs {
            SlotKind::Input(k)
        } else if k < inputs + gates {
            SlotKind::Gate(k - inputs)
        } else {
            self.kind_behind(k - inputs - gates)
        }
    }

    // What the slot at this place behind the gates of a direct session is of.
    fn kind_behind(&self, place: u32) -> SlotKind
        requires wiring { IsWiring self.now }
        requires direct { self.now.prepared ≡ false }
        requires within { place < length self.now.readers.items + length self.now.kept.items }
        ensures is { slot_of_kind result ≡ session_slot (session_in self.now)
            (length self.now.owners.items + length self.now.gates.items + place) }
        ensures inside { Inside (session_in self.now) (slot_of_kind result) }
    {
        let outputs = self.readers.len() as u32;
        if place < outputs {
            SlotKind::Output(place)
        } else {
            SlotKind::Kept(place - outputs)
        }
    }

    /// The number of the gate whose own slot this is.
    #[inline(always)]
    pub fn gate_number(&self, slot: u32) -> u32
        requires wiring { IsWiring self.now }
        requires within { slot < session_slots (session_in self.now) }
        requires gate { is_gate (session_slot (session_in self.now) slot) ≡ true }
        ensures is { At_gate result ≡ session_slot (session_in self.now) slot }
        ensures within { result < length self.now.gates.items }
    {
        if self.prepared {
            return self.listed_gate(slot);
        }
        slot - self.owners.len() as u32
    }

    // The same, of the table of slots.
    #[inline(never)]
    fn listed_gate(&self, slot: u32) -> u32
        requires wiring { IsWiring self.now }
        requires within { slot < session_slots (session_in self.now) }
        requires gate { is_gate (session_slot (session_in self.now) slot) ≡ true }
        ensures is { At_gate result ≡ session_slot (session_in self.now) slot }
        ensures within { result < length self.now.gates.items }
    {
        match self.slot_kind(slot) {
            SlotKind::Gate(t) => t,
            _ => unreachable!(),
        }
    }

    /// The product that is dealt in this slot.
    #[inline(always)]
    pub fn product_in(&self, slot: u32) -> Gate
        requires wiring { IsWiring self.now }
        requires within { slot < session_slots (session_in self.now) }
        requires product { has_product (session_slot (session_in self.now) slot) ≡ true }
        ensures { result ≡ product_in (session_in self.now) (session_slot (session_in self.now) slot) }
    {
        if self.prepared {
            return self.listed_product(slot);
        }
        self.gates[slot as usize - self.owners.len()]
    }

    // The same, of the table of slots.
    #[inline(never)]
    fn listed_product(&self, slot: u32) -> Gate
        requires wiring { IsWiring self.now }
        requires within { slot < session_slots (session_in self.now) }
        requires product { has_product (session_slot (session_in self.now) slot) ≡ true }
        ensures { result ≡ product_in (session_in self.now) (session_slot (session_in self.now) slot) }
    {
        match self.content(self.slot_kind(slot)) {
            SlotContent::Product(gate) => gate,
            _ => unreachable!(),
        }
    }
}

/// What each slot is of, once products are prepared.
pub(crate) fn list_kinds(
    alloc: Global,
    wiring: &Wiring,
    ahead: bool,
) -> Result<Vec<SlotKind>, AllocError>
    requires { IsWiring wiring.now }
    ensures { IfOk result (λ kinds. map slot_of_kind kinds.items ≡ slot_list (prepared_in wiring.now ahead)) }
{
    let mut kinds = Vec::new(alloc);
    push_prepared(wiring, ahead, &mut kinds)?;
    push_inputs(wiring, &mut kinds)?;
    push_gates(wiring, &mut kinds)?;
    push_outputs(wiring, &mut kinds)?;
    push_kept(wiring.kept.len() as u32, &mut kinds)?;
    Ok(kinds)
}

// The masks of the products, and their products.
fn push_prepared(wiring: &Wiring, ahead: bool, kinds: &mut Vec<SlotKind>) -> Result<(), AllocError>
    requires { IsWiring wiring.now }
    ensures { OnOk result (map slot_of_kind kinds.new.items
        ≡ map slot_of_kind kinds.old.items ++ prepared_slots (prepared_in wiring.now ahead)) }
{
    if ahead {
        push_masks(wiring, kinds)?;
        push_mask_products(wiring, kinds)
    } else {
        push_turns(wiring, kinds)
    }
}

// The masks of the products.
fn push_masks(wiring: &Wiring, kinds: &mut Vec<SlotKind>) -> Result<(), AllocError>
    requires { IsWiring wiring.now }
    ensures { OnOk result (map slot_of_kind kinds.new.items
        ≡ map slot_of_kind kinds.old.items ++ mask_slots (prepared_in wiring.now true)) }
{
    for t in 0..wiring.gates.len() as u32 {
        if wiring.gates[t as usize].operation.is_product() {
            kinds.extend_from_slice(&[
                SlotKind::Mask(t, Side::First),
                SlotKind::Mask(t, Side::Second),
            ])?;
        }
    }
    Ok(())
}

// The products of masks.
fn push_mask_products(wiring: &Wiring, kinds: &mut Vec<SlotKind>) -> Result<(), AllocError>
    requires { IsWiring wiring.now }
    ensures { OnOk result (map slot_of_kind kinds.new.items
        ≡ map slot_of_kind kinds.old.items ++ mask_product_slots (prepared_in wiring.now true)) }
{
    for t in 0..wiring.gates.len() as u32 {
        if wiring.gates[t as usize].operation.is_product() {
            kinds.push(SlotKind::MaskProduct(t))?;
        }
    }
    Ok(())
}

// Of each product the masks and their product.
fn push_turns(wiring: &Wiring, kinds: &mut Vec<SlotKind>) -> Result<(), AllocError>
    requires { IsWiring wiring.now }
    ensures { OnOk result (map slot_of_kind kinds.new.items
        ≡ map slot_of_kind kinds.old.items ++ turns_of_masks (prepared_in wiring.now false)) }
{
    for t in 0..wiring.gates.len() as u32 {
        if wiring.gates[t as usize].operation.is_product() {
            kinds.extend_from_slice(&[
                SlotKind::Mask(t, Side::First),
                SlotKind::Mask(t, Side::Second),
                SlotKind::MaskProduct(t),
            ])?;
        }
    }
    Ok(())
}

// The input wires.
fn push_inputs(wiring: &Wiring, kinds: &mut Vec<SlotKind>) -> Result<(), AllocError>
    requires { IsWiring wiring.now }
    ensures { OnOk result (map slot_of_kind kinds.new.items ≡ map slot_of_kind kinds.old.items
        ++ listed (length (owners (session_in wiring.now))) (λ v. Input v)) }
{
    for v in 0..wiring.owners.len() as u32 {
        kinds.push(SlotKind::Input(v))?;
    }
    Ok(())
}

// The gates, before each product what is opened of its wires.
fn push_gates(wiring: &Wiring, kinds: &mut Vec<SlotKind>) -> Result<(), AllocError>
    requires { IsWiring wiring.now }
    ensures { OnOk result (map slot_of_kind kinds.new.items
        ≡ map slot_of_kind kinds.old.items ++ gate_slots (prepared_in wiring.now false)) }
{
    for t in 0..wiring.gates.len() as u32 {
        if wiring.gates[t as usize].operation.is_product() {
            kinds.extend_from_slice(&[
                SlotKind::Masked(t, Side::First),
                SlotKind::Masked(t, Side::Second),
                SlotKind::Gate(t),
            ])?;
        } else {
            kinds.push(SlotKind::Gate(t))?;
        }
    }
    Ok(())
}

// The output wires.
fn push_outputs(wiring: &Wiring, kinds: &mut Vec<SlotKind>) -> Result<(), AllocError>
    requires { IsWiring wiring.now }
    ensures { OnOk result (map slot_of_kind kinds.new.items ≡ map slot_of_kind kinds.old.items
        ++ listed (length (readers (session_in wiring.now))) (λ o. Output o)) }
{
    for o in 0..wiring.readers.len() as u32 {
        kinds.push(SlotKind::Output(o))?;
    }
    Ok(())
}

/// So many wires that are kept.
pub(crate) fn push_kept(count: u32, kinds: &mut Vec<SlotKind>) -> Result<(), AllocError>
    ensures { OnOk result (map slot_of_kind kinds.new.items ≡ map slot_of_kind kinds.old.items
        ++ listed count (λ j. Kept j)) }
{
    for j in 0..count {
        kinds.push(SlotKind::Kept(j))?;
    }
    Ok(())
}
