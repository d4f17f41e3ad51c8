//! The reader of formulas.
ghost use Rattle.std.specs.Prelude.{◌≡◌, ℕ, List, MatchResult};
ghost use Rattle.group_formula.specs.Formulas.{IsFormula, Refuses};
ghost use Rattle.group_formula.specs.Laws.{HasOneAnswer};

use crate::fault::FormulaFault;
use crate::formula::Formula;
use crate::parse::parse;
use crate::resolve::resolve;
use party_names::Names;
use std::alloc::Global;

/// The formula that a text stands for over these names, or the one fault of the text. At most 32 parentheses are open
/// at once, and a name, `&`, `|` and `of` make one element each, at most 256.
pub fn read_formula(alloc: Global, text: &str, names: &Names) -> Result<Formula, FormulaFault>
    ensures { MatchResult result (IsFormula text.now names.now) (Refuses text.now names.now) }
{
    let text = text.as_bytes();
    let elements = parse(alloc, text)?;
    resolve(text, names, elements)
}

/// Over any names a text stands for a formula exactly where it has no fault, and for one only.
pub fn each_text_has_one_answer()
    ensures { (text : List ℕ) (names : List (List ℕ)) → HasOneAnswer text names }
{}
