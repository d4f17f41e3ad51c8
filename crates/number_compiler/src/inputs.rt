//! The inputs of a program.
ghost use Rattle.std.specs.Prelude.{◌≡◌, ◌-◌, ◌<◌, ◌≤◌, ◌⊎◌, ◌*◌, IfOk, MatchOption, MatchResult, None, Some};
ghost use Rattle.number_circuit.specs.Programs.{widest};
ghost use Rattle.line_grammar.specs.Places.{number_at};
ghost use Rattle.number_circuit.specs.Faults.{bad_width};
ghost use Rattle.number_compiler.specs.Terms.{fitted};
ghost use Rattle.number_compiler.specs.Circuits.{input_bits};
ghost use Rattle.number_compiler.specs.Seen.{seen};

use crate::elements::{NumberLine, written};
use crate::number::{Number, fitted};
use mpc_ring::Ring;
use number_circuit::NumberFault;
use number_gates::{Bit, Wire};
use std::alloc::{AllocError, Global};

/// The ring whose words have so many bits, if there is one.
fn ring_of(width: u64) -> Option<Ring>
    ensures { MatchOption result ((width ≡ 0) ⊎ (64 < width))
        (λ ring. (ring ≡ width) × (0 < width) × (width ≤ 64)) }
{
    if width > 64 {
        None
    } else {
        Ring::new(width as u32)
    }
}

/// The width that a line gives an input: its values are the words of this ring.
pub fn width_at(line: &NumberLine<'_>, at: usize) -> Result<Ring, NumberFault>
    ensures { MatchResult result
        (λ ring. (ring ≡ number_at line.now.text.now at)
        × (bad_width line.now.text.now line.now.number at ≡ None))
        (λ fault. bad_width line.now.text.now line.now.number at ≡ Some fault) }
{
    match written(line.text, at).and_then(ring_of) {
        Some(ring) => Ok(ring),
        None => Err(NumberFault::BadWidth {
            line: line.number,
            at: at as u64,
        }),
    }
}

/// The input wires from number `first` on, up to `end`.
fn input_bits(alloc: Global, first: u64, end: u64) -> Result<Vec<Bit>, AllocError>
    ensures { IfOk result (λ c. c.items ≡ input_bits first (end - first)) }
{
    let mut bits = Vec::new(alloc);
    for wire in first..end {
        bits.push(Bit::On(Wire::Input(wire)))?;
    }
    Ok(bits)
}

/// The number on the input wires from number `first` on, up to `end`, which is a word of the ring.
pub fn input_number(alloc: Global, first: u64, end: u64, ring: Ring) -> Result<Number, AllocError>
    ensures { IfOk result (λ c. seen c ≡ fitted (widest ring) (input_bits first (end - first))) }
{
    let bits = input_bits(alloc, first, end)?;
    fitted(alloc, ring.largest(), &bits)
}
