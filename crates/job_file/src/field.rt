//! The fields of a job's file.
ghost use Rattle.std.specs.Prelude.{◌≡◌};
ghost use Rattle.job_file.specs.Names.{field_text, field_kind};

use toml_fields::Kind;

/// A field of the top table (the first ten) or of a session.
#[derive(Clone, Copy, Debug, PartialEq, Eq)]
pub enum JobField {
    Version,
    RingBits,
    Parties,
    Formula,
    Tolerated,
    Hosts,
    Port,
    Frames,
    Views,
    Session,
    Circuit,
    Layout,
    Products,
    Order,
    Owners,
    Readers,
}

impl JobField {
    /// How the file names the field.
    #[tactic(auto, unfolding(crate::specs::Names::field_text))]
    pub fn text(self) -> &'static str
        ensures { result.now ≡ field_text self }
    {
        match self {
            JobField::Version => "version",
            JobField::RingBits => "ring_bits",
            JobField::Parties => "parties",
            JobField::Formula => "formula",
            JobField::Tolerated => "tolerated",
            JobField::Hosts => "hosts",
            JobField::Port => "port",
            JobField::Frames => "frames",
            JobField::Views => "views",
            JobField::Session => "session",
            JobField::Circuit => "circuit",
            JobField::Layout => "layout",
            JobField::Products => "products",
            JobField::Order => "order",
            JobField::Owners => "owners",
            JobField::Readers => "readers",
        }
    }

    /// The kind that the field is to be of.
    #[tactic(auto, unfolding(crate::specs::Names::field_kind))]
    pub fn kind(self) -> Kind
        ensures { result ≡ field_kind self }
    {
        match self {
            JobField::Version | JobField::RingBits | JobField::Port => Kind::Integer,
            JobField::Formula
            | JobField::Frames
            | JobField::Views
            | JobField::Circuit
            | JobField::Layout
            | JobField::Products
            | JobField::Order => Kind::Text,
            JobField::Parties | JobField::Hosts | JobField::Owners => Kind::Texts,
            JobField::Tolerated | JobField::Readers => Kind::TextLists,
            JobField::Session => Kind::Tables,
        }
    }
}
