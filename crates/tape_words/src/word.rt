//! A word off a tape.
ghost use Rattle.std.specs.Prelude.{◌≡◌};

use std::marker::Model;

/// A word off a tape. It can't be cloned, copied or let go: it is spent, once.
pub struct TapeWord {
    word: u64,
}

impl Model for TapeWord {
    ghost use Rattle.std.specs.Prelude.{ℕ};

    ghost Value = { ℕ };

    ghost view = { λ w. w.word };
}

impl TapeWord {
    pub(crate) fn new(word: u64) -> TapeWord
        ensures { result ≡ word }
    {
        TapeWord { word }
    }

    /// The number of the word, which is used up.
    pub fn spend(self) -> u64
        ensures { result ≡ self }
    {
        let TapeWord { word } = self;
        word
    }
}
