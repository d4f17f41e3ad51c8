//! Input values and output values of a session.

use crate::source::Source;
use party_set::Group;

/// Who gives an input value: a party, or an earlier session, of which this output value is carried.
#[derive(Clone, Copy, Debug, PartialEq, Eq)]
pub enum Owner {
    Party(u32),
    Carried { session: u32, value: u32 },
}

impl Owner {
    ghost use Rattle.std.specs.Prelude.{◌≡◌};
    ghost use Rattle.session_slots.specs.Sessions.{giver, is_carried, source_from};

    /// The party that gives the wires of the value; where none does, 0 stands for it.
    pub(crate) fn giver(self) -> u32
        ensures { result ≡ giver (source_from self 0) }
    {
        match self {
            Owner::Party(party) => party,
            Owner::Carried { .. } => 0,
        }
    }

    /// Whether the value is carried.
    pub(crate) fn is_carried(self) -> bool
        ensures { result ≡ is_carried (source_from self 0) }
    {
        match self {
            Owner::Party(_) => false,
            Owner::Carried { .. } => true,
        }
    }

    /// Where wire `wire` of the value comes from.
    pub(crate) fn source(self, wire: u32) -> Source
        ensures { result ≡ source_from self wire }
    {
        match self {
            Owner::Party(party) => Source::Given(party),
            Owner::Carried { session, value } => Source::Earlier {
                session,
                value,
                wire,
            },
        }
    }
}

/// An input value: how many wires it has, and who gives it.
#[derive(Clone, Copy, Debug, PartialEq, Eq)]
pub struct InputValue {
    pub width: u32,
    pub owner: Owner,
}

/// An output value: how many wires it has, and the parties that read it.
#[derive(Clone, Copy, Debug, PartialEq, Eq)]
pub struct OutputValue {
    pub width: u32,
    pub readers: Group,
}

/// What is kept of a session: input wire `wire` of the later session `session` carries output wire `output` of this
/// one, counted from the first output wire.
#[derive(Clone, Copy, Debug, PartialEq, Eq)]
pub struct KeptWire {
    pub session: u32,
    pub wire: u32,
    pub output: u32,
}
