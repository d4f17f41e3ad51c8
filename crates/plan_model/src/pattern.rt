//! How the messages of a slot go.

use crate::key::Key;
use session_slots::Source;

/// A message as the pattern of its slot has it: a summand, its sender and its receiver. It takes three bytes.
#[derive(Clone, Copy, Debug, PartialEq, Eq)]
pub struct Transfer {
    pub share: u8,
    pub sender: u8,
    pub receiver: u8,
}

impl Transfer {
    ghost use Rattle.std.specs.Prelude.{◌≡◌};
    ghost use Rattle.plan_model.specs.Patterns.{named};

    /// The message of this transfer, in slot `slot` of session `session`.
    pub fn named(self, session: u32, slot: u32) -> Key
        ensures { result ≡ named session slot self }
    {
        Key {
            session,
            slot,
            share: u32::from(self.share),
            sender: u32::from(self.sender),
            receiver: u32::from(self.receiver),
        }
    }
}

/// How the messages of a slot go, which depends on its kind alone.
#[derive(Clone, Copy, Debug, PartialEq, Eq)]
pub enum Pattern {
    /// There are none: a linear gate.
    Silent,
    /// This party deals a value.
    Dealt(u32),
    /// Each party that has a pair deals its part of a product.
    Multiplied,
    /// An output is opened to this group of readers, as a mask.
    Opened(u32),
    /// The summands of a mask are handed out, each by its least holder.
    HandedOut,
    /// What is masked is opened to all parties.
    OpenedToAll,
    /// There are none: a prepared product is joined.
    Joined,
    /// A wire is kept for a later session: each of its holders sends it to itself.
    Held,
    /// There are none: an input wire that is carried has those of the earlier session.
    Received,
}

impl Pattern {
    ghost use Rattle.std.specs.Prelude.{◌≡◌};
    ghost use Rattle.plan_model.specs.Patterns.{input_pattern, order_of};

    /// How the messages of an input go.
    pub fn of_input(source: Source) -> Pattern
        ensures { result ≡ input_pattern source }
    {
        match source {
            Source::Given(party) => Pattern::Dealt(party),
            Source::Earlier { .. } => Pattern::Received,
        }
    }

    /// The order in which the messages stand.
    pub fn order(self) -> TransferOrder
        ensures { result ≡ order_of self }
    {
        match self {
            Pattern::Silent
            | Pattern::Dealt(_)
            | Pattern::Multiplied
            | Pattern::Joined
            | Pattern::Received => TransferOrder::BySender,
            Pattern::HandedOut | Pattern::Held => TransferOrder::BySummand,
            Pattern::Opened(_) | Pattern::OpenedToAll => TransferOrder::ByReceiver,
        }
    }
}

/// The order in which the messages of a slot stand.
#[derive(Clone, Copy, Debug, PartialEq, Eq)]
pub enum TransferOrder {
    /// By sender, then summand, then receiver.
    BySender,
    /// By summand, then receiver.
    BySummand,
    /// By receiver, then summand.
    ByReceiver,
}
