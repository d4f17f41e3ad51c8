//! What a party does in a slot, apart from where the slot stands.
ghost use Rattle.std.specs.Prelude.{◌≡◌, ◌-◌, ◌^◌};
ghost use Rattle.party_program.specs.PartySteps.{placed, IsPlaced};

use program_model::Instruction;

/// A step of a party in a slot. It depends on the slot's pattern alone, so it names a message by its place among the
/// transfers of the pattern. It takes four bytes.
#[derive(Clone, Copy, Debug, PartialEq, Eq)]
pub enum Step {
    /// Draws the party's words of a mask.
    Draw,
    /// Deals the slot's input, or the party's own product.
    Deal,
    /// Forms the own product.
    Own,
    /// Posts the word of a message.
    Post { share: u8, place: u16 },
    /// Takes the word of a message.
    Take { share: u8, place: u16 },
    /// Computes a gate that needs no message.
    Linear,
    /// Moves the sums of a product to its wire.
    Sum,
    /// Opens what a wire of a prepared product has more than its mask.
    Open,
    /// Joins a prepared product from its masks, their product and what was opened.
    Join,
    /// Opens an output wire.
    Deliver,
}

impl Step {
    /// The instruction of the step in a slot, in which the first message that is posted or taken has this number, where
    /// the party has made `deals` deals before.
    #[inline(always)]
    pub(crate) fn placed(self, slot: u32, first: u32, deals: u32) -> Instruction
        requires { IsPlaced (2 ^ 32 - first) self }
        ensures { result ≡ placed slot first deals self }
    {
        match self {
            Step::Draw => Instruction::Draw { slot },
            Step::Deal => Instruction::Deal { slot, deal: deals },
            Step::Own => Instruction::Own { slot },
            Step::Post { place, share } => Instruction::Post {
                number: first + u32::from(place),
                share: u32::from(share),
            },
            Step::Take { place, share } => Instruction::Take {
                number: first + u32::from(place),
                share: u32::from(share),
            },
            Step::Linear => Instruction::Linear { slot },
            Step::Sum => Instruction::Sum { slot },
            Step::Open => Instruction::Open { slot },
            Step::Join => Instruction::Join { slot },
            Step::Deliver => Instruction::Deliver { slot },
        }
    }
}
