//! Why a text is no line.
use std::alloc::AllocError;

/// The first fault of a line. `at` is a byte of the line.
#[derive(Clone, Copy, Debug, PartialEq, Eq)]
pub enum LineFault {
    /// No line goes on with the token here, or the line ends too early.
    Syntax { at: u64 },
    /// The 33rd sign that is open: a parenthesis, `min` or `max`, or a minus, a `not` or an `if` whose last operand
    /// hasn't ended.
    TooDeep { at: u64 },
    /// There was too little memory.
    Memory,
}

impl From<AllocError> for LineFault {
    ghost use Rattle.std.specs.Prelude.{◌≡◌};
    ghost use Rattle.line_grammar.specs.declared.fault.LineFault.TheVariants.{Memory};

    ghost from_gives = { λ _ fault. fault ≡ Memory };

    fn from(_: AllocError) -> LineFault {
        LineFault::Memory
    }
}
