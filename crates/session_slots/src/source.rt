//! Where an input wire comes from.

/// Where an input wire comes from: a party gives it, or it carries this wire of an output value of an earlier session.
#[derive(Clone, Copy, Debug, PartialEq, Eq)]
pub enum Source {
    Given(u32),
    Earlier { session: u32, value: u32, wire: u32 },
}

impl Source {
    ghost use Rattle.std.specs.Prelude.{◌≡◌};
    ghost use Rattle.session_slots.specs.Sessions.{given_by, is_carried};

    /// Whether party `p` gives the wire.
    pub fn is_given_by(self, p: u32) -> bool
        ensures { result ≡ given_by p self }
    {
        match self {
            Source::Given(party) => party == p,
            Source::Earlier { .. } => false,
        }
    }

    /// Whether the wire is carried from an earlier session.
    pub fn is_carried(self) -> bool
        ensures { result ≡ is_carried self }
    {
        match self {
            Source::Given(_) => false,
            Source::Earlier { .. } => true,
        }
    }
}
