//! Tapes, and how they are cut.
ghost use Rattle.std.specs.Prelude.{◌≡◌, ◌^◌, ◌<◌, ◌≤◌, [], ◌∷◌, All, IfOk, IfErr, OnOk, MatchOption, length, sum};
ghost use Rattle.list_laws.specs.Lists.{listed};
ghost use Rattle.tape_words.specs.Cuts.{cut, IsFirstOutside, IsSplitRefusal};
ghost use Rattle.tape_words.specs.Seeds.{seed_word};

use crate::buffers::short_words;
use crate::word::TapeWord;
use crate::word_pairs::long_words;
use job_limits::MOST_SESSIONS;
use mpc_ring::Ring;
use rand_chacha::ChaCha20Rng;
use rand_core::SeedableRng;
use std::alloc::{AllocError, Global};
use std::marker::Model;

/// Why words are no tape.
#[derive(Clone, Copy, Debug, PartialEq, Eq)]
pub enum TapeFault {
    /// The first word outside the ring stands at this place, counted from 0.
    WordOutOfRing { at: u64 },
}

/// Why a tape isn't cut.
#[derive(Clone, Copy, Debug, PartialEq, Eq)]
pub enum SplitFault {
    /// The pieces need more words than are left.
    TapeShort { wanted: u64, found: u64 },
    /// There is no memory.
    Memory,
}

/// A tape. Contracts see it as the list of the words that are left, the next one first.
#[derive(Drop)]
pub struct Tape {
    words: Vec<u64>,
    drawn: usize,
}

impl Model for Tape {
    ghost use Rattle.std.specs.Prelude.{ℕ, ◌≤◌, List, drop, length};

    ghost Value = { List ℕ };

    ghost view = { λ t. drop t.drawn t.words.items };

    ghost invariant = { λ t. t.drawn ≤ length t.words.items };
}

impl Tape {
    /// The tape of these words, if each is in the ring.
    pub fn from_words(ring: Ring, words: Vec<u64>) -> Result<Tape, TapeFault>
        ensures kept { IfOk result (λ tape. tape ≡ words.items) }
        ensures inside { OnOk result (All (λ word. word < 2 ^ ring) words.items) }
        ensures first { IfErr result (IsFirstOutside (2 ^ ring) words.items) }
    {
        for (at, word) in words.iter().enumerate() {
            if !ring.fits(*word) {
                return Err(TapeFault::WordOutOfRing { at: at as u64 });
            }
        }
        Ok(Tape { words, drawn: 0 })
    }

    /// The tape of the first words of ChaCha20 (Bernstein 2008) under this seed, with the session's number as the
    /// nonce. Above 32 bits each takes two words of the stream, the low half first. Each is taken modulo the ring's
    /// modulus.
    pub fn from_seed(
        alloc: Global,
        ring: Ring,
        seed: &[u8; 32],
        session: u32,
        count: u32,
    ) -> Result<Tape, AllocError>
        ensures words { IfOk result (λ tape. tape ≡ listed count (seed_word ring seed.now session)) }
        ensures inside { IfOk result (λ tape. All (λ word. word < 2 ^ ring) tape) }
    {
        let mut generator = ChaCha20Rng::from_seed(*seed);
        generator.set_stream(u64::from(session));
        let words = if ring.bits() <= 32 {
            short_words(alloc, &mut generator, ring, count)?
        } else {
            long_words(alloc, &mut generator, ring, count)?
        };
        Ok(Tape { words, drawn: 0 })
    }

    /// How many words are left.
    pub fn left(&self) -> u64
        ensures { result ≡ length self.now }
    {
        (self.words.len() - self.drawn) as u64
    }

    /// The numbers of the words that are left. The words stay on the tape.
    pub fn copy_words(&self, alloc: Global) -> Result<Vec<u64>, AllocError>
        ensures { IfOk result (λ words. words.items ≡ self.now) }
    {
        self.words[self.drawn..].to_vec(alloc)
    }

    /// Takes the next word off, None exactly where no word is left.
    pub fn draw(&mut self) -> Option<TapeWord>
        ensures { MatchOption result ((self.old ≡ []) × (self.new ≡ [])) (λ word. self.old ≡ word ∷ self.new) }
    {
        if self.drawn == self.words.len() {
            return None;
        }
        let word = self.words[self.drawn];
        self.drawn += 1;
        Some(TapeWord::new(word))
    }

    /// Cuts the tape into consecutive pieces of these counts of words, and lets the rest go. Each refusal gives the
    /// whole tape back.
    pub fn split_sessions(
        self,
        alloc: Global,
        counts: &[u32],
    ) -> Result<Vec<Tape>, (SplitFault, Tape)>
        requires { length counts.now ≤ MOST_SESSIONS }
        ensures enough { OnOk result (sum counts.now ≤ length self) }
        ensures pieces { IfOk result (λ pieces. pieces.items ≡ cut counts.now self) }
        ensures refused { IfErr result (λ fault. IsSplitRefusal counts.now self fault.0) }
        ensures back { IfErr result (λ fault. fault.1 ≡ self) }
    {
        let found = self.left();
        let wanted = counts.iter().map(|count| u64::from(*count)).sum();
        if found < wanted {
            return Err((SplitFault::TapeShort { wanted, found }, self));
        }
        match self.pieces(alloc, counts) {
            Ok(pieces) => Ok(pieces),
            Err(_) => Err((SplitFault::Memory, self)),
        }
    }

    fn pieces(&self, alloc: Global, counts: &[u32]) -> Result<Vec<Tape>, AllocError>
        requires { sum counts.now ≤ length self.now }
        ensures { IfOk result (λ pieces. pieces.items ≡ cut counts.now self.now) }
    {
        let mut rest = &self.words[self.drawn..];
        let mut pieces = Vec::with_capacity(alloc, counts.len())?;
        for count in counts {
            let (piece, left) = rest.split_at(*count as usize);
            let words = piece.to_vec(alloc)?;
            pieces.push(Tape { words, drawn: 0 })?;
            rest = left;
        }
        Ok(pieces)
    }
}
