//! The elements of a formula in postfix order.

/// An element, whose operands stand before it. A name and a number are told by their places in the text, and then by
/// what they mean: the party and the count.
#[derive(Clone, Copy, Debug, PartialEq, Eq)]
pub enum FormulaElement {
    Name(usize),
    And,
    Or,
    /// At least `number` of the last `parts` parts.
    AtLeast { number: usize, parts: usize },
}
