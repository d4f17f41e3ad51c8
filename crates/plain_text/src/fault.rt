//! Why a text is no list of words.
use std::alloc::AllocFailed;

/// The fault of the first bad word of a text. Words are counted from 0.
#[derive(Clone, Copy, Debug, PartialEq, Eq)]
pub enum WordsFault {
    /// The word isn't made of digits alone.
    NotNumber { at: u64 },
    /// The number is `2^64` or more.
    TooLarge { at: u64 },
    /// There was too little memory.
    Memory,
}

impl<T: Drop> From<AllocFailed<T>> for WordsFault {
    ghost use Rattle.std.specs.Prelude.{◌≡◌};
    ghost use Rattle.plain_text.specs.declared.fault.WordsFault.TheVariants.{Memory};

    ghost from_gives = { λ _ fault. fault ≡ Memory };

    fn from(_: AllocFailed<T>) -> WordsFault {
        WordsFault::Memory
    }
}
