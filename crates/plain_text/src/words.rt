//! The numbers that a text writes.
ghost use Rattle.std.specs.Prelude.{◌≡◌, ◌⊎◌, Ok, Err, IfOk, IfErr};
ghost use Rattle.plain_text.specs.Words.{number_or_fault, numbers_or_fault};
ghost use Rattle.plain_text.specs.declared.fault.WordsFault.TheVariants.{Memory};

use crate::fault::WordsFault;
use std::alloc::Global;
use text_tokens::{Tokens, is_digits, number};

/// The number that the word at a place writes.
#[tactic(auto, unfolding(crate::specs::Words::number_or_fault))]
fn read_word(at: u64, word: &str) -> Result<u64, WordsFault>
    ensures { result ≡ number_or_fault at word.now }
{
    match number(word) {
        Some(number) => Ok(number),
        None if is_digits(word) => Err(WordsFault::TooLarge { at }),
        None => Err(WordsFault::NotNumber { at }),
    }
}

/// The numbers of a text, in order. They are written in decimal digits, may have leading zeros and any length, and
/// are separated by blanks: space, tab, LF and CR.
///
/// # Errors
///
/// The fault of the first word that writes no number below `2^64`.
pub fn read_words(alloc: Global, text: &str) -> Result<Vec<u64>, WordsFault>
    ensures words { IfOk result (λ words. numbers_or_fault text.now ≡ Ok words.items) }
    ensures fault { IfErr result (λ fault. (fault ≡ Memory) ⊎ (numbers_or_fault text.now ≡ Err fault)) }
{
    let mut words = Vec::new(alloc);
    for word in Tokens::of(text) {
        words.push(read_word(words.len() as u64, word)?)?;
    }
    Ok(words)
}
