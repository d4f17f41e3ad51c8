//! What waits for an operand.
ghost use Rattle.std.specs.Prelude.{◌≡◌, ◌≤◌};
ghost use Rattle.line_grammar.specs.Frames.{wanted, whole, ends, element, fewer, more};

use crate::element::ExprElement;
use crate::limits::{ATOM, MOST_OPEN};
use crate::operator::{Infix, Pair, Prefix};

/// What waits for an operand.
#[derive(Clone, Copy)]
pub(crate) enum Frame {
    /// `(`, up to its `)`.
    Group,
    /// `min (` or `max (`, up to its `,`.
    First(Pair),
    /// The same after the `,`, up to its `)`.
    Second(Pair),
    /// `if`, up to its `then`.
    Condition,
    /// The same after `then`, up to its `else`.
    Chosen,
    /// The same after `else`.
    Otherwise,
    /// An operator before its operand.
    Prefix(Prefix),
    /// An operand and an operator behind it.
    Infix(Infix, usize),
}

impl Frame {
    /// The least level of the operand.
    pub(crate) fn wanted(self) -> u8
        ensures { result ≡ wanted self }
    {
        match self {
            Frame::Prefix(prefix) => prefix.level(),
            Frame::Infix(infix, _) => infix.level() + 1,
            _ => 0,
        }
    }

    /// The level of the expression that is begun.
    pub(crate) fn whole(self) -> u8
        ensures { result ≡ whole self }
    {
        match self {
            Frame::Group | Frame::First(_) | Frame::Second(_) => ATOM,
            Frame::Condition | Frame::Chosen | Frame::Otherwise => 0,
            Frame::Prefix(prefix) => prefix.level(),
            Frame::Infix(infix, _) => infix.level(),
        }
    }

    /// Whether a token of this power ends the expression, once it has the operand.
    pub(crate) fn ends(self, power: u8) -> bool
        ensures { result ≡ ends power self }
    {
        match self {
            Frame::Otherwise | Frame::Prefix(_) | Frame::Infix(_, _) => power <= self.wanted(),
            _ => false,
        }
    }

    /// The element that stands behind its operands.
    pub(crate) fn element(self) -> Option<ExprElement>
        ensures { result ≡ element self }
    {
        match self {
            Frame::Otherwise => Some(ExprElement::Choose),
            Frame::Prefix(prefix) => Some(ExprElement::Prefix(prefix)),
            Frame::Infix(infix, at) => Some(ExprElement::Infix(infix, at)),
            _ => None,
        }
    }

    /// How many signs are open with it.
    pub(crate) fn more(self, signs: u8) -> u8
        requires { signs ≤ MOST_OPEN }
        ensures { result ≡ more self signs }
    {
        match self {
            Frame::Infix(_, _) => signs,
            _ => signs + 1,
        }
    }

    /// How many signs are open without it.
    pub(crate) fn fewer(self, signs: u8) -> u8
        ensures { result ≡ fewer self signs }
    {
        match self {
            Frame::Infix(_, _) => signs,
            _ => signs.saturating_sub(1),
        }
    }
}
