//! The inputs of a session whose words are numbers.
ghost use Rattle.std.specs.Prelude.{◌≡◌, ◌⊎◌, ◌^◌, ◌<◌, ◌++◌, [], ◌∷◌, Some, None, IfOk, IfErr, OnOk, length, nat_lt, slice_index_or};
ghost use Rattle.list_laws.specs.Checks.{first_fault, or_fault};
ghost use Rattle.list_laws.specs.Lists.{listed};
ghost use Rattle.session_slots.specs.Sessions.{given_by, source_from};
ghost use Rattle.value_words.specs.Turned.{most_bits, wires_of};
ghost use Rattle.party_file.specs.Table.{numbers_in, given_widths, number_checks, number_outside, number_widths, numbers_outside};
ghost use Rattle.party_file.specs.declared.fault.PartyFault.TheVariants.{Memory};

use crate::fault::PartyFault;
use crate::fields::check;
use crate::numbers::{check_count, read_numbers};
use job_plan::{Owner, SessionPart};
use mpc_ring::Ring;
use std::alloc::{AllocError, Global};
use value_words::{MOST_BITS, wires_of};

/// Whether the party gives the values of this owner.
fn is_giver(owner: Owner, party: u32) -> bool
    ensures { result ≡ given_by party (source_from owner 0) }
{
    match owner {
        Owner::Party(giver) => giver == party,
        Owner::Carried { .. } => false,
    }
}

/// The widths of the input values that the party gives.
pub fn given_widths(alloc: Global, part: &SessionPart, party: u32) -> Result<Vec<u32>, AllocError>
    ensures { IfOk result (λ widths. widths.items ≡ given_widths part.now party) }
{
    part.inputs()
        .iter()
        .filter(|value| is_giver(value.owner, party))
        .map(|value| value.width)
        .collect(alloc)
}

/// Adds the width for each lane.
fn push_width(widths: &mut Vec<u32>, lanes: u32, width: u32) -> Result<(), AllocError>
    ensures { OnOk result (widths.new.items ≡ widths.old.items ++ listed lanes (λ lane. width)) }
{
    for _ in 0..lanes {
        widths.push(width)?;
    }
    Ok(())
}

/// The width of each number's value.
fn number_widths(alloc: Global, lanes: u32, widths: &[u32]) -> Result<Vec<u32>, AllocError>
    ensures { IfOk result (λ found. found.items ≡ number_widths lanes widths.now) }
{
    let mut found = Vec::new(alloc);
    for value in 0..widths.len() {
        push_width(&mut found, lanes, widths[value])?;
    }
    Ok(found)
}

/// How many bits the number at this place may have.
fn width_at(widths: &[u32], place: usize) -> u32
    ensures { result ≡ slice_index_or widths.now place most_bits }
{
    if place < widths.len() {
        widths[place]
    } else {
        MOST_BITS
    }
}

/// Whether the number has no more than so many bits.
fn is_within(number: u64, bits: u32) -> bool
    ensures { result ≡ nat_lt number (2 ^ bits) }
{
    bits >= 64 || number >> bits == 0
}

/// The number at this place has at most as many bits as its value has wires.
fn check_number(
    widths: &[u32],
    session: u32,
    numbers: &[u64],
    place: usize,
) -> Result<(), PartyFault>
    requires { place < length numbers.now }
    ensures { result ≡ or_fault (first_fault (number_outside widths.now session numbers.now place ∷ [])) tt }
{
    check(
        !is_within(numbers[place], width_at(widths, place)),
        PartyFault::WordOutOfRing {
            session: Some(session),
            at: place as u64,
        },
    )
}

/// Each number has at most as many bits as its value has wires.
fn check_numbers(widths: &[u32], session: u32, numbers: &[u64]) -> Result<(), PartyFault>
    ensures { result ≡ or_fault (first_fault (numbers_outside widths.now session numbers.now)) tt }
{
    for place in 0..numbers.len() {
        check_number(widths, session, numbers, place)?;
    }
    Ok(())
}

/// The words of the input wires of values of these widths, for which a session's text gives numbers.
pub fn read_value_numbers(
    alloc: Global,
    ring: Ring,
    widths: &[u32],
    session: u32,
    text: &str,
) -> Result<Vec<u64>, PartyFault>
    ensures passed { IfOk result (λ words. (first_fault (number_checks ring widths.now session text.now) ≡ None)
        × (words.items ≡ wires_of ring widths.now (numbers_in text.now))) }
    ensures fault { IfErr result (λ fault. (fault ≡ Memory)
        ⊎ (first_fault (number_checks ring widths.now session text.now) ≡ Some fault)) }
{
    let numbers = read_numbers(alloc, Some(session), text)?;
    let allowed = number_widths(alloc, ring.bits(), widths)?;
    check_numbers(&allowed, session, &numbers)?;
    check_count(session, allowed.len() as u64, &numbers)?;
    Ok(wires_of(alloc, ring.bits(), widths, &numbers)?)
}
