//! Lines with tokens.
ghost use Rattle.std.specs.Prelude.{◌≡◌, ◌+◌, ◌^◌, ◌<◌, ℕ, [], ◌∷◌, length, slice_index_or, MatchOption};
ghost use Rattle.text_tokens.specs.Numbers.{number_written};
ghost use Rattle.gate_lines.specs.Rows.{Row, rows_of, rows_from, row_before};
ghost use Rattle.gate_lines.specs.Places.{rows_at};

use crate::cursor::Cursor;
use std::marker::Model;
use text_tokens::{Tokens, number};

/// A line that has tokens, with its number: the first line of a text is line 1.
#[derive(Drop)]
pub struct Line<'a> {
    number: u64,
    text: &'a str,
}

impl<'a> Model for Line<'a> {
    ghost use Rattle.std.specs.Str.{IsUtf8};
    ghost use Rattle.text_tokens.specs.Tokens.{tokens_of};
    ghost use Rattle.gate_lines.specs.Rows.{Row};

    ghost Value = { Row };

    ghost view = { λ line. record { number = line.number; tokens = tokens_of line.text.now } };

    ghost invariant = { λ line. IsUtf8 line.text.now };
}

impl<'a> Line<'a> {
    /// The number of the line in its text, counted from 1; blank lines count.
    pub fn number(&self) -> u64
        ensures { result ≡ self.now.number }
    {
        self.number
    }

    /// The tokens, in order. Going through all of them takes time linear in the line's length.
    pub fn tokens(&self) -> Tokens<'a>
        ensures { result ≡ self.now.tokens }
    {
        Tokens::of(self.text)
    }

    /// How many tokens the line has.
    pub fn count(&self) -> u64
        ensures { result ≡ length self.now.tokens }
    {
        Tokens::of(self.text).count() as u64
    }

    /// The token at a place, counted from 0, or the empty text past the last one.
    pub fn token(&self, at: u64) -> &'a str
        ensures { result.now ≡ slice_index_or self.now.tokens at [] }
    {
        self.tokens().nth(at as usize).unwrap_or("")
    }

    /// The number that the token at a place writes, if it writes one below `2^64`.
    pub fn value(&self, at: u64) -> Option<u64>
        ensures { result ≡ number_written (slice_index_or self.now.tokens at []) }
    {
        number(self.token(at))
    }
}

/// What stands before the first LF of a text, and what follows it.
fn cut_line(text: &str) -> (&str, &str)
    ensures rows { (n : ℕ) → rows_from n text.now ≡ row_before n result.0.now (rows_from (n + 1) result.1.now) }
    ensures shorter { 0 < length text.now → length result.1.now < length text.now }
{
    match text.split_once('\n') {
        Some((line, rest)) => (line, rest),
        None => (text, ""),
    }
}

/// The first line with tokens of a text whose first line has this number, and what follows it.
fn first_line(mut number: u64, text: &str) -> Option<(Line<'_>, &str)>
    requires { number + length text.now < 2 ^ 64 }
    ensures rows { MatchOption result (rows_from number text.now ≡ [])
        (λ found. rows_from number text.now ≡ found.0 ∷ rows_from (found.0.number + 1) found.1.now) }
    ensures room { MatchOption result (number ≡ number) (λ found. found.0.number + 1 + length found.1.now < 2 ^ 64) }
{
    let mut rest = text;
    while !rest.is_empty() {
        let (line, after) = cut_line(rest);
        if Tokens::of(line).next().is_some() {
            return Some((Line { number, text: line }, after));
        }
        rest = after;
        number += 1;
    }
    None
}

/// The lines of a text that have tokens, in order. Lines without tokens are passed over, but they count for line
/// numbers.
#[derive(Drop)]
pub struct Lines<'a> {
    number: u64,
    rest: &'a str,
}

impl<'a> Model for Lines<'a> {
    ghost use Rattle.std.specs.Prelude.{◌+◌, ◌^◌, ◌<◌, List, length};
    ghost use Rattle.std.specs.Str.{IsUtf8};
    ghost use Rattle.gate_lines.specs.Rows.{Row, rows_from};

    ghost Value = { List Row };

    ghost view = { λ lines. rows_from lines.number lines.rest.now };

    ghost invariant = { λ lines. IsUtf8 lines.rest.now × (lines.number + length lines.rest.now < 2 ^ 64) };
}

impl<'a> Lines<'a> {
    /// The lines of a text.
    pub fn new(text: &'a str) -> Lines<'a>
        ensures { result ≡ rows_of text.now }
    {
        Lines {
            number: 1,
            rest: text,
        }
    }

    /// The lines of a text whose first line has this number.
    pub(crate) fn of(number: u64, text: &'a str) -> Lines<'a>
        requires { number + length text.now < 2 ^ 64 }
        ensures { result ≡ rows_from number text.now }
    {
        Lines { number, rest: text }
    }

    /// A cursor at the first token of the next line with tokens.
    pub fn cursor(&self) -> Cursor<'a>
        ensures { rows_at result ≡ self.now }
    {
        Cursor::first(self.number, self.rest)
    }

    /// The next line with tokens, or nothing at the end of the text.
    pub fn next_line(&mut self) -> Option<Line<'a>>
        ensures { MatchOption result ((self.old ≡ []) × (self.new ≡ [])) (λ line. self.old ≡ line ∷ self.new) }
    {
        match first_line(self.number, self.rest) {
            Some((line, rest)) => {
                self.number = line.number + 1;
                self.rest = rest;
                Some(line)
            }
            None => {
                self.rest = "";
                None
            }
        }
    }
}
