//! Tokens that are taken one after another, without a look for the end of their line before.
ghost use Rattle.std.specs.Prelude.{◌≡◌, ◌<◌, ◌≤◌, ◌+◌, ◌-◌, ◌*◌, ◌^◌, ℕ, true, false, not, length, drop, slice_index, slice_range, IfSome, Some, IfNone, MatchOption, [], ◌∷◌, if◌then◌else◌};
ghost use Rattle.std.specs.List.{list_all};
ghost use Rattle.std.specs.Bool.{OnTrue};
ghost use Rattle.std.specs.Option.{option_map, is_some};
ghost use Rattle.std.specs.Char.{is_ascii_digit};
ghost use Rattle.std.specs.Str.Parse.{digits_value};
ghost use Rattle.text_tokens.specs.Tokens.{is_blank};
ghost use Rattle.text_tokens.specs.Numbers.{number_written};
ghost use Rattle.gate_lines.specs.Places.{place_in, rows_at, next_token, past_token, is_inner_blank, StandsAt, Passes};

use crate::lines::Lines;
use std::marker::Model;
use text_tokens::{is_blank, with_digit};

/// Whether a byte is a blank within a line.
#[inline(always)]
fn is_inner_blank(byte: u8) -> bool
    ensures { result ≡ is_inner_blank byte }
{
    byte != b'\n' && is_blank(byte)
}

/// Where the blanks end that begin at a place within a line.
fn blanks_end(bytes: &[u8], mut at: usize) -> usize
    requires { at ≤ length bytes.now }
    ensures before { at ≤ result }
    ensures stands { StandsAt bytes.now result }
    ensures same { (n : ℕ) → place_in n (drop result bytes.now) ≡ place_in n (drop at bytes.now) }
{
    while at < bytes.len() && is_inner_blank(bytes[at]) {
        at += 1;
    }
    at
}

/// The first line with tokens of a text whose first line has this number, and where its first token begins.
fn first_token(mut number: u64, bytes: &[u8]) -> (u64, usize)
    requires { number + length bytes.now < 2 ^ 64 }
    ensures stands { StandsAt bytes.now result.1 }
    ensures room { result.0 + length (drop result.1 bytes.now) < 2 ^ 64 }
    ensures rows { rows_at (place_in result.0 (drop result.1 bytes.now)) ≡ rows_at (place_in number bytes.now) }
{
    let mut at = blanks_end(bytes, 0);
    while at < bytes.len() && bytes[at] == b'\n' {
        number += 1;
        at = blanks_end(bytes, at + 1);
    }
    (number, at)
}

/// Whether a space stands at a place, and no blank after it.
#[inline(always)]
fn is_one_space(bytes: &[u8], at: usize) -> bool
    requires { at ≤ length bytes.now + 1 }
    ensures { OnTrue result ((at < length bytes.now) × (slice_index bytes.now at ≡ 32) × StandsAt bytes.now (at + 1)) }
{
    at + 1 < bytes.len() && bytes[at] == b' ' && bytes[at + 1] > b' '
}

/// Where the next token begins, or the line ends, if a token can end at a place.
#[inline(always)]
fn after_token(bytes: &[u8], end: usize) -> Option<usize>
    requires { end ≤ length bytes.now }
    ensures ends { IfSome result (λ next. end < length bytes.now → is_blank (slice_index bytes.now end) ≡ true) }
    ensures goes_on { IfNone result ((end < length bytes.now) × (is_blank (slice_index bytes.now end) ≡ false)) }
    ensures same { IfSome result (λ next. (n : ℕ)
        → place_in n (drop next bytes.now) ≡ place_in n (drop end bytes.now)) }
    ensures stands { IfSome result (λ next. (end ≤ next) × StandsAt bytes.now next) }
{
    if is_one_space(bytes, end) {
        return Some(end + 1);
    }
    if end == bytes.len() {
        return Some(end);
    }
    if is_inner_blank(bytes[end]) {
        return Some(blanks_end(bytes, end + 1));
    }
    if bytes[end] == b'\n' { Some(end) } else { None }
}

/// The value of a digit; more than 9 for other bytes.
#[inline(always)]
fn digit_of(byte: u8) -> u64
    ensures digit { is_ascii_digit byte ≡ true → result ≡ byte - 48 }
    ensures other { is_ascii_digit byte ≡ false → 9 < result }
{
    u64::from(byte).wrapping_sub(48)
}

/// The value of the first digits at a place, and where they end. There are at most 19, whose value is below `2^64`.
#[inline(always)]
fn first_digits(bytes: &[u8], start: usize) -> (u64, usize)
    requires { start ≤ length bytes.now }
    ensures within { (start ≤ result.1) × (result.1 ≤ length bytes.now) }
    ensures all { list_all is_ascii_digit (slice_range bytes.now start result.1) ≡ true }
    ensures value { result.0 ≡ digits_value 10 (slice_range bytes.now start result.1) }
{
    let most = bytes.len().min(start + 19);
    let mut value = 0;
    let mut at = start;
    while at < most && digit_of(bytes[at]) <= 9 {
        value = value * 10 + digit_of(bytes[at]);
        at += 1;
    }
    (value, at)
}

/// The number that the token at a place writes in any count of digits.
#[cold]
fn long_number(bytes: &[u8], start: usize) -> Option<u64>
    requires { StandsAt bytes.now start }
    ensures { result ≡ number_written (next_token (place_in 0 (drop start bytes.now))) }
{
    let mut value = 0;
    let mut at = start;
    while at < bytes.len() && bytes[at].is_ascii_digit() {
        value = with_digit(value, bytes[at])?;
        at += 1;
    }
    if at == start {
        return None;
    }
    let _ = after_token(bytes, at)?;
    Some(value)
}

/// Where the token ends that begins at a place.
fn token_end(bytes: &[u8], mut at: usize) -> usize
    requires within { at ≤ length bytes.now }
    ensures within { (at ≤ result) × (result ≤ length bytes.now) }
    ensures whole { list_all (λ c. not (is_blank c)) (slice_range bytes.now at result) ≡ true }
    ensures stops { result < length bytes.now → is_blank (slice_index bytes.now result) ≡ true }
{
    while at < bytes.len() && !is_blank(bytes[at]) {
        at += 1;
    }
    at
}

/// Where the token begins that follows the one at a place.
#[cold]
fn next_place(bytes: &[u8], start: usize) -> usize
    requires stands { StandsAt bytes.now start }
    requires token { ¬ (next_token (place_in 0 (drop start bytes.now)) ≡ []) }
    ensures { Passes bytes.now start result }
{
    blanks_end(bytes, token_end(bytes, start))
}

/// The number and the next token, where the token at a place is one digit before a space.
#[inline(always)]
fn one_digit(bytes: &[u8], start: usize) -> Option<(u64, usize)>
    requires { StandsAt bytes.now start }
    ensures number { IfSome result (λ found. Some found.0
        ≡ number_written (next_token (place_in 0 (drop start bytes.now)))) }
    ensures past { IfSome result (λ found. Passes bytes.now start found.1) }
{
    if is_one_space(bytes, start + 1) && bytes[start].is_ascii_digit() {
        return Some((u64::from(bytes[start] - b'0'), start + 2));
    }
    None
}

/// The number that the token at a place writes, and where the next token begins.
#[inline(always)]
fn number_at(bytes: &[u8], start: usize) -> Option<(u64, usize)>
    requires { StandsAt bytes.now start }
    ensures number { option_map (λ found. found.0) result
        ≡ number_written (next_token (place_in 0 (drop start bytes.now))) }
    ensures past { IfSome result (λ found. Passes bytes.now start found.1) }
{
    if let Some(found) = one_digit(bytes, start) {
        return Some(found);
    }
    let (value, end) = first_digits(bytes, start);
    if end > start {
        if let Some(next) = after_token(bytes, end) {
            return Some((value, next));
        }
    }
    let value = long_number(bytes, start)?;
    Some((value, next_place(bytes, start)))
}

/// A place in a line of a text: at a token, or at the end of the line.
#[derive(Drop)]
pub struct Cursor<'a> {
    number: u64,
    text: &'a str,
    at: usize,
}

impl<'a> Model for Cursor<'a> {
    ghost use Rattle.std.specs.Prelude.{◌+◌, ◌^◌, ◌<◌, length, drop};
    ghost use Rattle.std.specs.Str.{IsUtf8};
    ghost use Rattle.gate_lines.specs.Places.{Place, place_in, StandsAt};

    ghost Value = { Place };

    ghost view = { λ c. place_in c.number (drop c.at c.text.now) };

    ghost invariant = { λ c. IsUtf8 c.text.now × StandsAt c.text.now c.at
        × (c.number + length (drop c.at c.text.now) < 2 ^ 64) };
}

impl<'a> Cursor<'a> {
    /// The first token of a text whose first line has this number.
    pub(crate) fn first(number: u64, text: &'a str) -> Cursor<'a>
        requires { number + length text.now < 2 ^ 64 }
        ensures { rows_at result ≡ rows_at (place_in number text.now) }
    {
        let (number, at) = first_token(number, text.as_bytes());
        Cursor { number, text, at }
    }

    /// The number of the line.
    pub fn line(&self) -> u64
        ensures { result ≡ self.now.number }
    {
        self.number
    }

    /// Takes the next token, if it writes a number below `2^64`, and tells that number.
    #[inline(always)]
    pub fn number(&mut self) -> Option<u64>
        ensures number { result ≡ number_written (next_token self.old) }
        ensures taken { self.new ≡ (if is_some result then past_token self.old else self.old) }
    {
        let (number, next) = number_at(self.text.as_bytes(), self.at)?;
        self.at = next;
        Some(number)
    }

    /// Takes the next token.
    pub fn token(&mut self) -> Option<&'a [u8]>
        ensures { MatchOption result ((self.old.tokens ≡ []) × (self.new ≡ self.old))
            (λ token. self.old ≡ record self.new { tokens = token.now ∷ self.new.tokens }) }
    {
        let bytes = self.text.as_bytes();
        let start = self.at;
        let end = token_end(bytes, start);
        if start == end {
            return None;
        }
        self.at = blanks_end(bytes, end);
        Some(&bytes[start..end])
    }

    /// The lines after this one, if no token of this one is left.
    pub fn finish(self) -> Option<Lines<'a>>
        ensures { MatchOption result (¬ (self.entry.tokens ≡ []))
            (λ lines. (self.entry.tokens ≡ []) × (lines ≡ self.entry.rows)) }
    {
        let bytes = self.text.as_bytes();
        if self.at == bytes.len() {
            return Some(Lines::of(self.number, ""));
        }
        if bytes[self.at] != b'\n' {
            return None;
        }
        let (_, rest) = self.text.split_at(self.at + 1);
        Some(Lines::of(self.number + 1, rest))
    }
}
