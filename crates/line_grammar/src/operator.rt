//! Operators and their levels.
ghost use Rattle.std.specs.Prelude.{◌≡◌};
ghost use Rattle.line_grammar.specs.Levels as levels;

/// An operator between two operands.
#[derive(Clone, Copy, Debug, PartialEq, Eq)]
pub enum Infix {
    Or,
    And,
    Equal,
    Unequal,
    Less,
    AtMost,
    Greater,
    AtLeast,
    Add,
    Subtract,
    Multiply,
    Divide,
    Remainder,
}

/// An operator before its operand.
#[derive(Clone, Copy, Debug, PartialEq, Eq)]
pub enum Prefix {
    Not,
    Negate,
}

/// What is said of two operands in parentheses: `min` or `max`.
#[derive(Clone, Copy, Debug, PartialEq, Eq)]
pub enum Pair {
    Least,
    Most,
}

impl Infix {
    /// The level of what the operator makes.
    pub(crate) fn level(self) -> u8
        ensures { result ≡ levels.level self }
    {
        match self {
            Infix::Or => 1,
            Infix::And => 2,
            Infix::Equal
            | Infix::Unequal
            | Infix::Less
            | Infix::AtMost
            | Infix::Greater
            | Infix::AtLeast => 4,
            Infix::Add | Infix::Subtract => 5,
            Infix::Multiply | Infix::Divide | Infix::Remainder => 6,
        }
    }

    /// The least level of its left operand: a comparison is no operand of another.
    pub(crate) fn left(self) -> u8
        ensures { result ≡ levels.left self }
    {
        match self {
            Infix::Or => 1,
            Infix::And => 2,
            Infix::Equal
            | Infix::Unequal
            | Infix::Less
            | Infix::AtMost
            | Infix::Greater
            | Infix::AtLeast => 5,
            Infix::Add | Infix::Subtract => 5,
            Infix::Multiply | Infix::Divide | Infix::Remainder => 6,
        }
    }
}

impl Prefix {
    /// The level of what the operator makes, and the least level of its operand.
    pub(crate) fn level(self) -> u8
        ensures { result ≡ levels.prefix_level self }
    {
        match self {
            Prefix::Not => 3,
            Prefix::Negate => 7,
        }
    }
}
