//! Words of inputs and of tapes.
ghost use Rattle.std.specs.Prelude.{◌≡◌, ◌⊎◌, ◌^◌, [], ◌∷◌, Some, None, IfOk, IfErr};
ghost use Rattle.list_laws.specs.Checks.{first_fault, or_fault};
ghost use Rattle.party_file.specs.Table.{numbers_in, bad_words, first_outside, out_of_ring, other_count};
ghost use Rattle.party_file.specs.declared.fault.PartyFault.TheVariants.{Memory};

use crate::fault::{PartyFault, WordCause};
use crate::fields::check;
use mpc_ring::Ring;
use plain_text::{WordsFault, read_words};
use std::alloc::Global;

/// The numbers of a text, which are the inputs of a session, or without a session the tape.
pub fn read_numbers(alloc: Global, session: Option<u32>, text: &str) -> Result<Vec<u64>, PartyFault>
    ensures passed { IfOk result (λ words. (first_fault (bad_words session text.now ∷ []) ≡ None)
        × (words.items ≡ numbers_in text.now)) }
    ensures fault { IfErr result (λ fault. (fault ≡ Memory)
        ⊎ (first_fault (bad_words session text.now ∷ []) ≡ Some fault)) }
{
    match read_words(alloc, text) {
        Ok(words) => Ok(words),
        Err(WordsFault::NotNumber { at }) => Err(PartyFault::BadWords {
            session,
            at,
            cause: WordCause::NotNumber,
        }),
        Err(WordsFault::TooLarge { at }) => Err(PartyFault::BadWords {
            session,
            at,
            cause: WordCause::TooLarge,
        }),
        Err(WordsFault::Memory) => Err(PartyFault::Memory),
    }
}

/// The place of the first word outside the ring; the count of words, where there is none.
fn first_outside(ring: Ring, words: &[u64]) -> usize
    ensures { result ≡ first_outside (2 ^ ring) words.now }
{
    words
        .iter()
        .position(|word| !ring.fits(*word))
        .unwrap_or(words.len())
}

/// Each word is in the ring.
#[tactic(auto, unfolding(crate::specs::Table::out_of_ring))]
pub fn check_ring(ring: Ring, session: Option<u32>, words: &[u64]) -> Result<(), PartyFault>
    ensures { result ≡ or_fault (first_fault (out_of_ring ring session words.now ∷ [])) tt }
{
    let at = first_outside(ring, words);
    check(
        at < words.len(),
        PartyFault::WordOutOfRing {
            session,
            at: at as u64,
        },
    )
}

/// There are as many words as are wanted.
pub fn check_count(session: u32, wanted: u64, words: &[u64]) -> Result<(), PartyFault>
    ensures { result ≡ or_fault (first_fault (other_count wanted session words.now ∷ [])) tt }
{
    let found = words.len() as u64;
    check(
        found != wanted,
        PartyFault::CountDiffers {
            session: Some(session),
            wanted,
            found,
        },
    )
}
