//! The languages of lines. An operator more is a row here, and its level.
ghost use Rattle.std.specs.Prelude.{◌≡◌};
ghost use Rattle.line_grammar.specs.Dialects as dialects;

use crate::frame::Frame;
use crate::operator::{Infix, Prefix};
use crate::token::{LineToken, operator_word, plain_word, sign_of, symbol_of};
use text_tokens::TokenLanguage;

/// A language of lines.
#[derive(Clone, Copy, Debug, PartialEq, Eq)]
pub enum Dialect {
    /// Words modulo a power of 2.
    Words,
    /// Whole numbers.
    Numbers,
}

impl Dialect {
    /// Whether the language has the operator between two operands.
    pub(crate) fn has_infix(self, operator: Infix) -> bool
        ensures { result ≡ dialects.has_infix self operator }
    {
        match self {
            Dialect::Words => matches!(operator, Infix::Add | Infix::Subtract | Infix::Multiply),
            Dialect::Numbers => !matches!(operator, Infix::Subtract),
        }
    }

    /// Whether the language has the operator before an operand.
    pub(crate) fn has_prefix(self, operator: Prefix) -> bool
        ensures { result ≡ dialects.has_prefix self operator }
    {
        match self {
            Dialect::Words => matches!(operator, Prefix::Negate),
            Dialect::Numbers => matches!(operator, Prefix::Not),
        }
    }

    /// Whether the language has `min` and `max`.
    pub(crate) fn has_pairs(self) -> bool
        ensures { result ≡ dialects.has_pairs self }
    {
        matches!(self, Dialect::Numbers)
    }

    /// Whether the language has `if`.
    pub(crate) fn has_choice(self) -> bool
        ensures { result ≡ dialects.has_choice self }
    {
        matches!(self, Dialect::Numbers)
    }

    /// Whether an input has a width.
    pub(crate) fn has_width(self) -> bool
        ensures { result ≡ dialects.has_width self }
    {
        matches!(self, Dialect::Numbers)
    }

    /// Whether the language has what the frame is of.
    pub(crate) fn has_frame(self, frame: Frame) -> bool
        ensures { result ≡ dialects.has_frame self frame }
    {
        match frame {
            Frame::First(_) => self.has_pairs(),
            Frame::Condition => self.has_choice(),
            Frame::Prefix(prefix) => self.has_prefix(prefix),
            Frame::Infix(infix, _) => self.has_infix(infix),
            _ => true,
        }
    }
}

impl TokenLanguage for Dialect {
    type Token = LineToken;

    ghost use Rattle.line_grammar.specs.Tokens.{language};

    ghost language = { language };

    fn is_blank(self, byte: u8) -> bool {
        matches!(byte, b' ' | b'\t' | b'\r')
    }

    fn word(self, at: usize, word: &[u8]) -> LineToken {
        match self {
            Dialect::Words => plain_word(at, word),
            Dialect::Numbers => match operator_word(at, word) {
                Some(token) => token,
                None => plain_word(at, word),
            },
        }
    }

    fn number(self, at: usize) -> LineToken {
        LineToken::Number(at)
    }

    fn is_sign(self, byte: u8) -> bool {
        match self {
            Dialect::Words => false,
            Dialect::Numbers => matches!(byte, b'=' | b'!' | b'<' | b'>'),
        }
    }

    fn sign(self, at: usize, sign: &[u8]) -> LineToken {
        sign_of(at, sign)
    }

    fn symbol(self, at: usize, byte: u8) -> LineToken {
        symbol_of(at, byte)
    }
}
