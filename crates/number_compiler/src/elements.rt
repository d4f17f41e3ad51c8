//! The gates of the elements of an expression.
ghost use Rattle.std.specs.Prelude.{◌≡◌, Bool, Some, None, if◌then◌else◌};
ghost use Rattle.number_circuit.specs.Faults.{fits};
ghost use Rattle.line_grammar.specs.Places.{number_at};
ghost use Rattle.number_circuit.specs.Walks.{says_number};
ghost use Rattle.line_grammar.specs.declared.element.ExprElement.TheVariants as elements;
ghost use Rattle.number_gates.specs.Steps.{Kept};
ghost use Rattle.number_compiler.specs.Circuits.{Names};
ghost use Rattle.number_compiler.specs.Named.{AreNames};
ghost use Rattle.number_compiler.specs.Moves.{Moves, Expresses};

use crate::names::NamedNumbers;
use crate::number::{Number, constant};
use crate::operators::{choice, inverse, most, operator, pair};
use crate::pending::Pending;
use line_grammar::{ExprElement, Infix, Pair, Prefix};
use number_circuit::NumberFault;
use number_gates::BitGates;
use std::alloc::Global;
use text_tokens::{number, word_bytes};

/// A line with its number.
#[derive(Clone, Copy)]
pub struct NumberLine<'a> {
    pub text: &'a [u8],
    pub number: u64,
}

/// A name.
fn name(
    alloc: Global,
    names: &NamedNumbers<'_>,
    line: &NumberLine<'_>,
    at: usize,
    pending: &mut Pending,
) -> Result<(), NumberFault>
    ensures { (of : Names) → AreNames names.now of → (by_number : Bool) (k : Kept) → Moves of line.now.text.now
        line.now.number by_number (elements.Name at) pending.old k result pending.new k }
{
    match names.number(alloc, word_bytes(line.text, at))? {
        Some(number) => Ok(pending.push(number)?),
        None => Err(NumberFault::UnknownName {
            line: line.number,
            at: at as u64,
        }),
    }
}

/// `not`.
fn prefix(
    alloc: Global,
    gates: &mut BitGates,
    line: &NumberLine<'_>,
    x: Prefix,
    pending: &mut Pending,
) -> Result<(), NumberFault>
    ensures { (of : Names) (by_number : Bool) → Moves of line.now.text.now line.now.number by_number
        (elements.Prefix x) pending.old gates.old result pending.new gates.new }
{
    let operand = pending.pop(alloc);
    let number = inverse(alloc, gates, &operand)?;
    Ok(pending.push(number)?)
}

/// An operator between two operands, of which the second is a number of the text or not.
fn infix(
    alloc: Global,
    gates: &mut BitGates,
    line: &NumberLine<'_>,
    by_number: bool,
    o: Infix,
    at: usize,
    pending: &mut Pending,
) -> Result<(), NumberFault>
    ensures { (of : Names) → Moves of line.now.text.now line.now.number by_number (elements.Infix o at) pending.old
        gates.old result pending.new gates.new }
{
    let right = pending.pop(alloc);
    let left = pending.pop(alloc);
    match most(o, left.most, right.most, by_number) {
        Some(bound) => {
            let number = operator(alloc, gates, o, bound, &left, &right)?;
            Ok(pending.push(number)?)
        }
        None => Err(NumberFault::TooWide {
            line: line.number,
            at: at as u64,
        }),
    }
}

/// `min` or `max`.
fn extreme(
    alloc: Global,
    gates: &mut BitGates,
    line: &NumberLine<'_>,
    p: Pair,
    pending: &mut Pending,
) -> Result<(), NumberFault>
    ensures { (of : Names) (by_number : Bool) → Moves of line.now.text.now line.now.number by_number
        (elements.Pair p) pending.old gates.old result pending.new gates.new }
{
    let right = pending.pop(alloc);
    let left = pending.pop(alloc);
    let number = pair(alloc, gates, p, &left, &right)?;
    Ok(pending.push(number)?)
}

/// The choice between two operands by a third, which stands first.
fn choose(
    alloc: Global,
    gates: &mut BitGates,
    line: &NumberLine<'_>,
    pending: &mut Pending,
) -> Result<(), NumberFault>
    ensures { (of : Names) (by_number : Bool) → Moves of line.now.text.now line.now.number by_number
        elements.Choose pending.old gates.old result pending.new gates.new }
{
    let right = pending.pop(alloc);
    let left = pending.pop(alloc);
    let which = pending.pop(alloc);
    let number = choice(alloc, gates, &which, &left, &right)?;
    Ok(pending.push(number)?)
}

/// The number at this place, if it is below 2^64.
pub fn written(text: &[u8], at: usize) -> Option<u64>
    ensures { result ≡ (if fits (number_at text.now at) then Some (number_at text.now at) else None) }
{
    let digits = text_tokens::number_at(text, at);
    if digits.is_empty() {
        return Some(0);
    }
    number(digits)
}

/// A number.
fn literal(
    alloc: Global,
    line: &NumberLine<'_>,
    at: usize,
    pending: &mut Pending,
) -> Result<(), NumberFault>
    ensures { (of : Names) (by_number : Bool) (k : Kept) → Moves of line.now.text.now line.now.number by_number
        (elements.Number at) pending.old k result pending.new k }
{
    match written(line.text, at) {
        Some(found) => {
            let number = constant(alloc, found)?;
            Ok(pending.push(number)?)
        }
        None => Err(NumberFault::BadConstant {
            line: line.number,
            at: at as u64,
        }),
    }
}

/// What the element says is a number of the text.
fn says_number(element: ExprElement) -> bool
    ensures { result ≡ says_number element }
{
    match element {
        ExprElement::Number(_) => true,
        _ => false,
    }
}

/// Puts the number of an element in the place of those of its operands. The element before it says a number of the
/// text or not.
fn element(
    alloc: Global,
    gates: &mut BitGates,
    names: &NamedNumbers<'_>,
    line: &NumberLine<'_>,
    by_number: bool,
    element: ExprElement,
    pending: &mut Pending,
) -> Result<(), NumberFault>
    ensures { (of : Names) → AreNames names.now of → Moves of line.now.text.now line.now.number by_number element
        pending.old gates.old result pending.new gates.new }
{
    match element {
        ExprElement::Name(at) => name(alloc, names, line, at, pending),
        ExprElement::Number(at) => literal(alloc, line, at, pending),
        ExprElement::Prefix(x) => prefix(alloc, gates, line, x, pending),
        ExprElement::Infix(o, at) => infix(alloc, gates, line, by_number, o, at, pending),
        ExprElement::Pair(p) => extreme(alloc, gates, line, p, pending),
        ExprElement::Choose => choose(alloc, gates, line, pending),
    }
}

/// The number of an expression.
pub fn expression(
    alloc: Global,
    gates: &mut BitGates,
    names: &NamedNumbers<'_>,
    line: &NumberLine<'_>,
    elements: &[ExprElement],
    pending: &mut Pending,
) -> Result<Number, NumberFault>
    ensures { (of : Names) → AreNames names.now of
        → Expresses of line.now.text.now line.now.number elements.now gates.old result gates.new }
{
    pending.clear();
    let mut by_number = false;
    for one in elements {
        match element(alloc, gates, names, line, by_number, *one, pending) {
            Ok(()) => {}
            Err(fault) => return Err(fault),
        }
        by_number = says_number(*one);
    }
    Ok(pending.pop(alloc))
}
