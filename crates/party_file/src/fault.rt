//! Why a file is no party's.
ghost use Rattle.std.specs.Prelude.{◌≡◌, ◌<◌, [], ◌∷◌, codes, length};
ghost use Rattle.fault_table.specs.Tables.{fault, Name};
ghost use Rattle.party_file.specs.ToldFaults.{cause_text, of_field, told_party_fault};

use crate::field::PartyField;
use fault_table::{Entry, MOST_KEYS};
use party_names::NameText;
use std::alloc::{AllocError, AllocFailed};

/// What is wrong with a word.
#[derive(Clone, Copy, Debug, PartialEq, Eq)]
pub enum WordCause {
    /// It isn't made of digits alone.
    NotNumber,
    /// It is `2^64` or more.
    TooLarge,
}

impl WordCause {
    /// The name of the cause.
    pub fn text(self) -> &'static str
        ensures { result.now ≡ cause_text self }
    {
        match self {
            WordCause::NotNumber => "NotNumber",
            WordCause::TooLarge => "TooLarge",
        }
    }
}

/// The fault of a party's file. Sessions, words and texts are counted from 0.
#[derive(Drop)]
pub enum PartyFault {
    /// The bytes are no document of TOML.
    NotToml,
    /// The version isn't 1.
    Version {
        found: i64,
    },
    /// A field is missing: for a file without random words, the tape.
    Missing {
        field: PartyField,
    },
    /// There is a field of another name; this is the least by bytes.
    Unknown {
        name: NameText,
    },
    /// A field is of another kind.
    WrongKind {
        field: PartyField,
    },
    /// In a session, there are other inputs than the party's input wires, or numbers than one for each lane of its
    /// values; without a session, other texts of inputs than sessions.
    CountDiffers {
        session: Option<u32>,
        wanted: u64,
        found: u64,
    },
    /// A word of a session's inputs, or without a session of the tape, is no number below `2^64`.
    BadWords {
        session: Option<u32>,
        at: u64,
        cause: WordCause,
    },
    /// A word of a session's inputs, or without a session of the tape, isn't in the ring; or a number of a session's
    /// inputs has more bits than its value has wires.
    WordOutOfRing {
        session: Option<u32>,
        at: u64,
    },
    /// Both a tape and a seed are given.
    TapeAndSeed,
    /// The seed isn't 64 hexadecimal digits.
    BadSeed,
    /// The tape has fewer words than the party draws in all sessions.
    TapeShort {
        wanted: u64,
        found: u64,
    },
    /// There was too little memory.
    Memory,
}

impl PartyFault {
    /// What the line of a refusal tells of the fault.
    pub fn told(&self) -> Entry<'_>
        ensures is { result ≡ told_party_fault self.now }
        ensures few { length result.keys < MOST_KEYS }
    {
        match self {
            PartyFault::NotToml => Entry::new(1, "NotToml"),
            PartyFault::Version { found } => Entry::new(2, "Version").with_signed("found", *found),
            PartyFault::Missing { field } => of_field(3, "Missing", *field),
            PartyFault::Unknown { name } => return unknown(name.as_str()),
            PartyFault::WrongKind { field } => of_field(5, "WrongKind", *field),
            PartyFault::CountDiffers {
                session,
                wanted,
                found,
            } => Entry::in_session(6, "CountDiffers", *session).with_found(*wanted, *found),
            PartyFault::BadWords { session, at, cause } => Entry::in_session(
                7, "BadWords", *session,
            ).with_number("at", *at)
                .with_text("cause", cause.text().as_bytes()),
            PartyFault::WordOutOfRing { session, at } => {
                Entry::in_session(8, "WordOutOfRing", *session).with_number("at", *at)
            }
            PartyFault::TapeAndSeed => Entry::new(9, "TapeAndSeed"),
            PartyFault::BadSeed => Entry::new(10, "BadSeed"),
            PartyFault::TapeShort { wanted, found } => {
                Entry::new(11, "TapeShort").with_found(*wanted, *found)
            }
            PartyFault::Memory => Entry::new(0, "Memory"),
        }
    }
}

fn unknown(name: &str) -> Entry<'_>
    ensures { result ≡ fault 4 (codes "Unknown") ((codes "name", Name name.now) ∷ []) }
{
    Entry::new(4, "Unknown").with_name("name", name.as_bytes())
}

fn of_field(number: u32, name: &'static str, field: PartyField) -> Entry<'static>
    ensures { result ≡ fault number name.now (of_field field) }
{
    Entry::new(number, name).with_text("field", field.text().as_bytes())
}

impl From<AllocError> for PartyFault {
    ghost use Rattle.std.specs.Prelude.{◌≡◌};
    ghost use Rattle.party_file.specs.declared.fault.PartyFault.TheVariants.{Memory};

    ghost from_gives = { λ _ fault. fault ≡ Memory };

    fn from(_: AllocError) -> PartyFault {
        PartyFault::Memory
    }
}

impl<T: Drop> From<AllocFailed<T>> for PartyFault {
    ghost use Rattle.std.specs.Prelude.{◌≡◌};
    ghost use Rattle.party_file.specs.declared.fault.PartyFault.TheVariants.{Memory};

    ghost from_gives = { λ _ fault. fault ≡ Memory };

    fn from(_: AllocFailed<T>) -> PartyFault {
        PartyFault::Memory
    }
}
