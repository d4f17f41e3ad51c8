//! The fields of a party's file.
ghost use Rattle.std.specs.Prelude.{◌≡◌};
ghost use Rattle.party_file.specs.ToldFaults.{field_text};

/// A field of a party's file.
#[derive(Clone, Copy, Debug, PartialEq, Eq)]
pub enum PartyField {
    Version,
    Inputs,
    Tape,
    Seed,
}

impl PartyField {
    /// The name of the field.
    pub fn text(self) -> &'static str
        ensures { result.now ≡ field_text self }
    {
        match self {
            PartyField::Version => "version",
            PartyField::Inputs => "inputs",
            PartyField::Tape => "tape",
            PartyField::Seed => "seed",
        }
    }
}
