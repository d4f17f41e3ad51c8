//! Dealing a value: its replicated additive summands are words off a tape, and last what is missing to the value
//! (Ito, Saito, Nishizeki 1987; Maurer 2006).
#![tactic(auto)]

ghost use Rattle.std.specs.Prelude.{◌≡◌, ◌+◌, ◌-◌, ◌^◌, ◌<◌, ◌≤◌, All, length, slice_index, drop};
ghost use Rattle.secret_sharing.specs.Schemes.{Scheme};
ghost use Rattle.deal_step.specs.Deals.{IsDealt};

use mpc_ring::Ring;
use tape_words::Tape;

/// Deals `value`: draws a word off the tape for each place of `out` but the last, spends it there, and writes into
/// the last place what is missing to the value.
pub fn deal(ring: Ring, value: u64, tape: &mut Tape, out: &mut [u64])
    requires value { value < 2 ^ ring }
    requires words { All (λ word. word < 2 ^ ring) tape.old }
    requires some { 0 < length out.old }
    requires enough { length out.old - 1 ≤ length tape.old }
    ensures tape { tape.new ≡ drop (length out.old - 1) tape.old }
    ensures dealt { (s : Scheme) → s.modulus ≡ 2 ^ ring → s.shares ≡ length out.new → IsDealt s value tape.old out.new }
    ensures below { All (λ word. word < 2 ^ ring) out.new }
{
    if out.len() == 3 {
        deal_three(ring, value, tape, out);
    } else {
        deal_each(ring, value, tape, out);
    }
}

// The same, place by place.
fn deal_each(ring: Ring, value: u64, tape: &mut Tape, out: &mut [u64])
    requires value { value < 2 ^ ring }
    requires words { All (λ word. word < 2 ^ ring) tape.old }
    requires some { 0 < length out.old }
    requires enough { length out.old - 1 ≤ length tape.old }
    ensures tape { tape.new ≡ drop (length out.old - 1) tape.old }
    ensures dealt { (s : Scheme) → s.modulus ≡ 2 ^ ring → s.shares ≡ length out.new → IsDealt s value tape.old out.new }
    ensures below { All (λ word. word < 2 ^ ring) out.new }
{
    let last = out.len() - 1;
    let mut sum = 0;
    for place in &mut out[..last] {
        let word = next_word(ring, tape);
        *place = word;
        sum = ring.add(sum, word);
    }
    out[last] = ring.sub(value, sum);
}

// The same into three places, as with three parties and the formula `2 of` them. A loop over so few costs more than the
// words.
#[inline(always)]
fn deal_three(ring: Ring, value: u64, tape: &mut Tape, out: &mut [u64])
    requires value { value < 2 ^ ring }
    requires words { All (λ word. word < 2 ^ ring) tape.old }
    requires three { length out.old ≡ 3 }
    requires enough { 2 ≤ length tape.old }
    ensures tape { tape.new ≡ drop 2 tape.old }
    ensures dealt { (s : Scheme) → s.modulus ≡ 2 ^ ring → s.shares ≡ 3 → IsDealt s value tape.old out.new }
    ensures below { All (λ word. word < 2 ^ ring) out.new }
    ensures count { length out.new ≡ 3 }
{
    let first = next_word(ring, tape);
    let second = next_word(ring, tape);
    out[0] = first;
    out[1] = second;
    out[2] = ring.sub(value, ring.add(first, second));
}

/// Draws the next word and spends it.
pub fn next_word(ring: Ring, tape: &mut Tape) -> u64
    requires words { All (λ word. word < 2 ^ ring) tape.old }
    requires some { 0 < length tape.old }
    ensures is { result ≡ slice_index tape.old 0 }
    ensures tape { tape.new ≡ drop 1 tape.old }
    ensures words { All (λ word. word < 2 ^ ring) tape.new }
    ensures below { result < 2 ^ ring }
{
    tape.draw().unwrap().spend()
}
