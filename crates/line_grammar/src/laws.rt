//! The laws of the grammar.
ghost use Rattle.std.specs.Prelude.{ℕ, List, Option};
ghost use Rattle.line_grammar.specs.declared.dialect.Dialect.{Dialect};
ghost use Rattle.line_grammar.specs.declared.dialect.Dialect.TheVariants.{Words};
ghost use Rattle.line_grammar.specs.Grammar.{Expr, IsExpr};
ghost use Rattle.line_grammar.specs.Laws.{HasOneReading, HasWordOperators};

/// Each text is blank, or one line as it is kept, or has one first fault, and never two of them.
pub fn each_line_has_one_reading()
    ensures { (d : Dialect) (text : List ℕ) → HasOneReading d text }
{}

/// An expression of words has no operators but `+`, `-` and `*`, and no choice.
pub fn words_have_plus_minus_and_times()
    ensures { (limit : Option ℕ) (n : ℕ) (e : Expr) → IsExpr Words limit n e → HasWordOperators e }
{}
