//! The tokens of a line.
ghost use Rattle.std.specs.Prelude.{◌≡◌};
ghost use Rattle.line_grammar.specs.Tokens as tokens;

use crate::frame::Frame;
use crate::limits::LONGEST_NAME;
use crate::operator::{Infix, Pair, Prefix};

/// A token. A name, a number and an operator are told by the place in the line where they begin.
#[derive(Clone, Copy)]
pub enum LineToken {
    Input,
    Let,
    Output,
    If,
    Then,
    Else,
    Not(usize),
    Pair(Pair),
    Name(usize),
    Number(usize),
    Equals,
    Infix(Infix, usize),
    Open,
    Comma,
    Close,
    /// A token that no line has.
    Unknown,
}

impl LineToken {
    ghost use Rattle.line_grammar.specs.Frames.{begun};
    ghost use Rattle.line_grammar.specs.Machine.{power};

    /// How tightly the token binds what was read before it: 0 is the least.
    pub(crate) fn power(self) -> u8
        ensures { result ≡ power self }
    {
        match self {
            LineToken::Infix(infix, _) => infix.level() + 1,
            _ => 0,
        }
    }

    /// What the token begins where an operand is wanted, if it begins one of several tokens.
    pub(crate) fn begun(self) -> Option<Frame>
        ensures { result ≡ begun self }
    {
        match self {
            LineToken::Open => Some(Frame::Group),
            LineToken::Pair(pair) => Some(Frame::First(pair)),
            LineToken::If => Some(Frame::Condition),
            LineToken::Not(_) => Some(Frame::Prefix(Prefix::Not)),
            LineToken::Infix(Infix::Subtract, _) => Some(Frame::Prefix(Prefix::Negate)),
            _ => None,
        }
    }
}

/// The token of a word of numbers alone. No line has `signed`, which is kept for numbers with a sign.
pub(crate) fn operator_word(at: usize, word: &[u8]) -> Option<LineToken>
    ensures { result ≡ tokens.operator_word at word.now }
{
    if word == b"or".as_slice() {
        Some(LineToken::Infix(Infix::Or, at))
    } else if word == b"and".as_slice() {
        Some(LineToken::Infix(Infix::And, at))
    } else if word == b"not".as_slice() {
        Some(LineToken::Not(at))
    } else if word == b"min".as_slice() {
        Some(LineToken::Pair(Pair::Least))
    } else if word == b"max".as_slice() {
        Some(LineToken::Pair(Pair::Most))
    } else if word == b"if".as_slice() {
        Some(LineToken::If)
    } else if word == b"then".as_slice() {
        Some(LineToken::Then)
    } else if word == b"else".as_slice() {
        Some(LineToken::Else)
    } else if word == b"signed".as_slice() {
        Some(LineToken::Unknown)
    } else {
        None
    }
}

/// The token of another word: what a line begins with, or a name.
pub(crate) fn plain_word(at: usize, word: &[u8]) -> LineToken
    ensures { result ≡ tokens.plain_word at word.now }
{
    if word == b"input".as_slice() {
        LineToken::Input
    } else if word == b"let".as_slice() {
        LineToken::Let
    } else if word == b"output".as_slice() {
        LineToken::Output
    } else if word.len() <= LONGEST_NAME {
        LineToken::Name(at)
    } else {
        LineToken::Unknown
    }
}

/// The token of a run of `=`, `!`, `<` and `>`.
pub(crate) fn sign_of(at: usize, sign: &[u8]) -> LineToken
    ensures { result ≡ tokens.sign at sign.now }
{
    if sign == b"=".as_slice() {
        LineToken::Equals
    } else if sign == b"==".as_slice() {
        LineToken::Infix(Infix::Equal, at)
    } else if sign == b"!=".as_slice() {
        LineToken::Infix(Infix::Unequal, at)
    } else if sign == b"<".as_slice() {
        LineToken::Infix(Infix::Less, at)
    } else if sign == b"<=".as_slice() {
        LineToken::Infix(Infix::AtMost, at)
    } else if sign == b">".as_slice() {
        LineToken::Infix(Infix::Greater, at)
    } else if sign == b">=".as_slice() {
        LineToken::Infix(Infix::AtLeast, at)
    } else {
        LineToken::Unknown
    }
}

/// The token of another byte.
pub(crate) fn symbol_of(at: usize, byte: u8) -> LineToken
    ensures { result ≡ tokens.symbol at byte }
{
    match byte {
        b'=' => LineToken::Equals,
        b'+' => LineToken::Infix(Infix::Add, at),
        b'-' => LineToken::Infix(Infix::Subtract, at),
        b'*' => LineToken::Infix(Infix::Multiply, at),
        b'/' => LineToken::Infix(Infix::Divide, at),
        b'%' => LineToken::Infix(Infix::Remainder, at),
        b'(' => LineToken::Open,
        b',' => LineToken::Comma,
        b')' => LineToken::Close,
        _ => LineToken::Unknown,
    }
}
