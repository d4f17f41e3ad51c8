//! The first pass over a text.
ghost use Rattle.std.specs.Prelude.{◌≡◌, MatchResult, ◌≤◌};
ghost use Rattle.group_formula.specs.Parsed.{IsParsed, StopsParsing};

use crate::element::FormulaElement;
use crate::fault::FormulaFault;
use crate::formula_parser::FormulaParser;
use crate::limits::{MOST_NODES, MOST_OPEN};
use crate::token::FormulaLanguage;
use std::alloc::Global;
use text_tokens::next_token;

/// The elements of the formula in postfix order, its names and numbers told by their places, or the fault of the first
/// token that has one.
pub(crate) fn parse(alloc: Global, text: &[u8]) -> Result<Vec<FormulaElement>, FormulaFault>
    ensures { MatchResult result (λ elements. IsParsed text.now elements.items) (StopsParsing text.now) }
{
    let mut parser = FormulaParser::new(alloc);
    let mut elements = 0;
    let mut from = 0;
    while let Some(cut) = next_token(FormulaLanguage, text, from) {
        let at = cut.at as u64;
        match parser.advance(cut.token) {
            Err(_) => return Err(FormulaFault::Memory),
            Ok(goes_on) => {
                if !goes_on {
                    return Err(FormulaFault::Syntax { at });
                }
            }
        }
        if parser.depth() > MOST_OPEN {
            return Err(FormulaFault::TooDeep { at });
        }
        if cut.token.is_element() {
            if elements == MOST_NODES {
                return Err(FormulaFault::TooManyNodes { at });
            }
            elements += 1;
        }
        from = cut.end;
    }
    if !parser.is_done() {
        return Err(FormulaFault::Syntax {
            at: text.len() as u64,
        });
    }
    match parser.into_elements() {
        Ok(elements) => Ok(elements),
        Err(_) => Err(FormulaFault::Memory),
    }
}
