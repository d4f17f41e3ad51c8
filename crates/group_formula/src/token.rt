//! The tokens of formulas.
ghost use Rattle.std.specs.Prelude.{◌≡◌};
ghost use Rattle.group_formula.specs.Tokens.{is_element};

use text_tokens::{TokenLanguage, is_blank};

/// A token. A name and a number are told by the place in the text where they begin.
#[derive(Clone, Copy, Debug, PartialEq, Eq)]
pub enum FormulaToken {
    Name(usize),
    Number(usize),
    Of,
    Bar,
    Ampersand,
    Open,
    Close,
    Comma,
    /// A byte that begins no token of a formula.
    Unknown,
}

impl FormulaToken {
    /// Whether the token makes an element of the formula.
    pub fn is_element(self) -> bool
        ensures { result ≡ is_element self }
    {
        matches!(
            self,
            FormulaToken::Name(_) | FormulaToken::Of | FormulaToken::Bar | FormulaToken::Ampersand
        )
    }
}

/// The language of formulas.
#[derive(Clone, Copy)]
pub struct FormulaLanguage;

impl TokenLanguage for FormulaLanguage {
    type Token = FormulaToken;

    ghost use Rattle.group_formula.specs.Tokens.{formula_language};

    ghost language = { λ _. formula_language };

    fn is_blank(self, byte: u8) -> bool {
        is_blank(byte)
    }

    fn word(self, at: usize, word: &[u8]) -> FormulaToken {
        if word == b"of".as_slice() {
            FormulaToken::Of
        } else {
            FormulaToken::Name(at)
        }
    }

    fn number(self, at: usize) -> FormulaToken {
        FormulaToken::Number(at)
    }

    fn is_sign(self, _byte: u8) -> bool {
        false
    }

    fn sign(self, _at: usize, _sign: &[u8]) -> FormulaToken {
        FormulaToken::Unknown
    }

    fn symbol(self, _at: usize, byte: u8) -> FormulaToken {
        match byte {
            b'|' => FormulaToken::Bar,
            b'&' => FormulaToken::Ampersand,
            b'(' => FormulaToken::Open,
            b')' => FormulaToken::Close,
            b',' => FormulaToken::Comma,
            _ => FormulaToken::Unknown,
        }
    }
}
