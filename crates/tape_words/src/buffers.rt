//! Words of at most 32 bits, off a generator a buffer at a time.
ghost use Rattle.std.specs.Prelude.{◌≡◌, ◌+◌, ◌*◌, ◌^◌, ◌<◌, ◌≤◌, IfOk, flat_map};
ghost use Rattle.list_laws.specs.Lists.{listed};
ghost use Rattle.tape_words.specs.Seeds.{short_word};

use mpc_ring::Ring;
use rand_chacha::ChaCha20Rng;
use rand_core::utils::NextWord;
use std::alloc::{AllocError, Global};

/// How many words the generator makes at once: four blocks of ChaCha.
pub(crate) const BUFFER: u32 = 64;

/// So many words, each modulo the ring's modulus, from a generator at the start of its stream.
pub(crate) fn short_words(
    alloc: Global,
    generator: &mut ChaCha20Rng,
    ring: Ring,
    count: u32,
) -> Result<Vec<u64>, AllocError>
    requires { generator.old.word_pos ≡ 0 }
    ensures { let word = short_word ring generator.old.key generator.old.stream in
        IfOk result (λ words. words.items ≡ listed count word) }
{
    let buffers = count.div_ceil(BUFFER);
    let mut words = Vec::with_capacity(alloc, buffers as usize * BUFFER as usize)?;
    for buffer in 0..buffers {
        let rows = buffer_words(generator, ring, buffer);
        words.extend_from_slice(rows.as_flattened())?;
    }
    words.truncate(count as usize);
    Ok(words)
}

// The next 64 words, each modulo the ring's modulus, from a generator that stands behind `buffers` whole buffers.
#[inline(always)]
fn buffer_words(generator: &mut ChaCha20Rng, ring: Ring, buffers: u32) -> [[u64; 8]; 8]
    requires { generator.old.word_pos ≡ 64 * buffers }
    ensures words { let stream = short_word ring generator.old.key generator.old.stream in
        flat_map (λ row. row) result ≡ listed 64 (λ i. stream (64 * buffers + i)) }
    ensures after { generator.new ≡ record generator.old { word_pos = 64 * buffers + 64 } }
{
    // It stands there already. But now the compiler sees that its buffer begins here, so that none of the 64 words has
    // to look for the end of it.
    generator.set_word_pos(u128::from(buffers) * u128::from(BUFFER));
    [
        row_words(generator, ring),
        row_words(generator, ring),
        row_words(generator, ring),
        row_words(generator, ring),
        row_words(generator, ring),
        row_words(generator, ring),
        row_words(generator, ring),
        row_words(generator, ring),
    ]
}

// The next eight.
#[inline(always)]
fn row_words(generator: &mut ChaCha20Rng, ring: Ring) -> [u64; 8]
    requires { generator.old.word_pos + 8 ≤ 2 ^ 40 }
    ensures words { let stream = short_word ring generator.old.key generator.old.stream in
        result ≡ listed 8 (λ i. stream (generator.old.word_pos + i)) }
    ensures after { generator.new ≡ record generator.old { word_pos = generator.old.word_pos + 8 } }
{
    [
        next_word(generator, ring),
        next_word(generator, ring),
        next_word(generator, ring),
        next_word(generator, ring),
        next_word(generator, ring),
        next_word(generator, ring),
        next_word(generator, ring),
        next_word(generator, ring),
    ]
}

// The next one.
#[inline(always)]
fn next_word(generator: &mut ChaCha20Rng, ring: Ring) -> u64
    requires { generator.old.word_pos < 2 ^ 40 }
    ensures word { let stream = short_word ring generator.old.key generator.old.stream in
        result ≡ stream generator.old.word_pos }
    ensures after { generator.new ≡ record generator.old { word_pos = generator.old.word_pos + 1 } }
{
    ring.reduce(u64::from(generator.next_word()))
}
