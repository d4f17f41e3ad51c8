//! Words of more than 32 bits, off a generator a buffer at a time.
ghost use Rattle.std.specs.Prelude.{◌≡◌, ◌+◌, ◌*◌, ◌^◌, ◌<◌, ◌≤◌, IfOk, flat_map};
ghost use Rattle.list_laws.specs.Lists.{listed};
ghost use Rattle.tape_words.specs.Seeds.{long_word};

use crate::buffers::BUFFER;
use mpc_ring::Ring;
use rand_chacha::ChaCha20Rng;
use rand_core::utils::NextWord;
use std::alloc::{AllocError, Global};

// A buffer of the generator has two of its words for each of these.
const PAIRS: u32 = BUFFER / 2;

/// So many words, each modulo the ring's modulus, from a generator at the start of its stream.
pub(crate) fn long_words(
    alloc: Global,
    generator: &mut ChaCha20Rng,
    ring: Ring,
    count: u32,
) -> Result<Vec<u64>, AllocError>
    requires { generator.old.word_pos ≡ 0 }
    ensures { let word = long_word ring generator.old.key generator.old.stream in
        IfOk result (λ words. words.items ≡ listed count (λ i. word (2 * i))) }
{
    let buffers = count.div_ceil(PAIRS);
    let mut words = Vec::with_capacity(alloc, buffers as usize * PAIRS as usize)?;
    for buffer in 0..buffers {
        let rows = buffer_pairs(generator, ring, buffer);
        words.extend_from_slice(rows.as_flattened())?;
    }
    words.truncate(count as usize);
    Ok(words)
}

// The next 32 words from a generator that stands behind `buffers` whole buffers.
#[inline(always)]
fn buffer_pairs(generator: &mut ChaCha20Rng, ring: Ring, buffers: u32) -> [[u64; 8]; 4]
    requires { generator.old.word_pos ≡ 64 * buffers }
    ensures words { let word = long_word ring generator.old.key generator.old.stream in
        flat_map (λ row. row) result ≡ listed 32 (λ i. word (64 * buffers + 2 * i)) }
    ensures after { generator.new ≡ record generator.old { word_pos = 64 * buffers + 64 } }
{
    // It stands there already. But now the compiler sees that its buffer begins here, so that none of the 64 words has
    // to look for the end of it.
    generator.set_word_pos(u128::from(buffers) * u128::from(BUFFER));
    [
        row_pairs(generator, ring),
        row_pairs(generator, ring),
        row_pairs(generator, ring),
        row_pairs(generator, ring),
    ]
}

// The next eight.
#[inline(always)]
fn row_pairs(generator: &mut ChaCha20Rng, ring: Ring) -> [u64; 8]
    requires { generator.old.word_pos + 16 ≤ 2 ^ 40 }
    ensures words { let word = long_word ring generator.old.key generator.old.stream in
        result ≡ listed 8 (λ i. word (generator.old.word_pos + 2 * i)) }
    ensures after { generator.new ≡ record generator.old { word_pos = generator.old.word_pos + 16 } }
{
    [
        next_pair(generator, ring),
        next_pair(generator, ring),
        next_pair(generator, ring),
        next_pair(generator, ring),
        next_pair(generator, ring),
        next_pair(generator, ring),
        next_pair(generator, ring),
        next_pair(generator, ring),
    ]
}

// The next one: its low half is the generator's next word, and its high half the word after that.
#[inline(always)]
fn next_pair(generator: &mut ChaCha20Rng, ring: Ring) -> u64
    requires { generator.old.word_pos + 2 ≤ 2 ^ 40 }
    ensures word { let word = long_word ring generator.old.key generator.old.stream in
        result ≡ word generator.old.word_pos }
    ensures after { generator.new ≡ record generator.old { word_pos = generator.old.word_pos + 2 } }
{
    let low = u64::from(generator.next_word());
    let high = u64::from(generator.next_word());
    ring.reduce(high << 32 | low)
}
