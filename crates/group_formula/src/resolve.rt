//! The second pass: what the names and the numbers mean.
ghost use Rattle.std.specs.Prelude.{◌≡◌, ◌*◌, ◌&&◌, map, MatchResult, Option, Some, None};
ghost use Rattle.group_formula.specs.Formulas.{number_in_text, reading, IsFormula, IsSecondFault};
ghost use Rattle.group_formula.specs.Resolved.{good_count, meaning, earlier, least, resolved_element};
ghost use Rattle.group_formula.specs.Parsed.{IsParsed};

use crate::element::FormulaElement;
use crate::fault::FormulaFault;
use crate::formula::Formula;
use party_names::Names;
use text_tokens::{number_at, with_digit, word_at};

/// The number that stands at this place, if it is at least 1 and at most `parts`.
fn count_at(text: &[u8], at: usize, parts: usize) -> Option<usize>
    ensures { result ≡ good_count (number_in_text text.now at) parts }
{
    let digits = number_at(text, at).as_bytes();
    let mut number = 0;
    for byte in digits {
        number = with_digit(number, *byte)?;
    }
    if 1 <= number && number <= parts as u64 {
        Some(number as usize)
    } else {
        None
    }
}

/// What an element means that tells its name or number by the place, or its fault.
fn resolve_element(
    text: &[u8],
    names: &Names,
    element: FormulaElement,
) -> Result<FormulaElement, FormulaFault>
    ensures { result ≡ meaning (reading text.now names.now) element }
{
    match element {
        FormulaElement::Name(at) => match names.number(word_at(text, at)) {
            Some(party) => Ok(FormulaElement::Name(party as usize)),
            None => Err(FormulaFault::UnknownName { at: at as u64 }),
        },
        FormulaElement::AtLeast { number: at, parts } => match count_at(text, at, parts) {
            Some(count) => Ok(FormulaElement::AtLeast {
                number: count,
                parts,
            }),
            None => Err(FormulaFault::BadCount { at: at as u64 }),
        },
        FormulaElement::And => Ok(FormulaElement::And),
        FormulaElement::Or => Ok(FormulaElement::Or),
    }
}

/// The fault that stands first.
fn earlier(known: Option<FormulaFault>, fault: FormulaFault) -> FormulaFault
    ensures { Some result ≡ earlier known (Some fault) }
{
    match known {
        Some(first) if first.at() < fault.at() => first,
        _ => fault,
    }
}

/// Puts what it means in the place of each element, or finds the fault that stands first in the text.
fn resolve_elements(
    text: &[u8],
    names: &Names,
    elements: &mut [FormulaElement],
) -> Option<FormulaFault>
    ensures first { result ≡ least (reading text.now names.now) elements.old }
    ensures resolved { result ≡ None → elements.new ≡ map (resolved_element (reading text.now names.now)) elements.old }
{
    let mut first = None;
    for element in elements.iter_mut() {
        match resolve_element(text, names, *element) {
            Ok(meant) => *element = meant,
            Err(fault) => first = Some(earlier(first, fault)),
        }
    }
    first
}

/// The formula of elements that tell their names and numbers by their places, or the fault that stands first.
pub(crate) fn resolve(
    text: &[u8],
    names: &Names,
    mut elements: Vec<FormulaElement>,
) -> Result<Formula, FormulaFault>
    requires { IsParsed text.now elements.items }
    ensures { MatchResult result (IsFormula text.now names.now) (IsSecondFault text.now names.now) }
{
    match resolve_elements(text, names, &mut elements) {
        Some(fault) => Err(fault),
        None => Ok(Formula::of(names.len(), elements)),
    }
}
