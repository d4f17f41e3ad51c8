//! Instructions of a party.

/// One instruction of a party in a session. Slots are numbered within the session, messages within the plan, deals
/// within the party's session.
#[derive(Clone, Copy, Debug, PartialEq, Eq)]
pub enum Instruction {
    /// Draws words of a mask, for the summands of which the party is the least holder.
    Draw { slot: u32 },
    /// Deals an input or the own product of a slot: draws and spends its tape words.
    Deal { slot: u32, deal: u32 },
    /// Posts the word of a message.
    Post { number: u32, share: u32 },
    /// Takes the word of a message.
    Take { number: u32, share: u32 },
    /// Computes a gate that needs no message.
    Linear { slot: u32 },
    /// Forms the own product at a gate, or of the masks of its wires.
    Own { slot: u32 },
    /// Moves the sums of a product to its wire.
    Sum { slot: u32 },
    /// Opens what a wire of a prepared product has more than its mask.
    Open { slot: u32 },
    /// Joins a prepared product from its masks, their product and what was opened.
    Join { slot: u32 },
    /// Opens an output wire.
    Deliver { slot: u32 },
    End,
}
