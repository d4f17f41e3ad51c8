//! The tokens of a text.
ghost use Rattle.std.specs.Prelude.{◌≡◌, not};
ghost use Rattle.std.specs.List.{position_or_len};
ghost use Rattle.std.specs.Iterator.{YieldsFirstRef, item_count};
ghost use Rattle.text_tokens.specs.Tokens.{is_blank, tokens_of};

use std::marker::Model;

/// Whether a byte is a blank: space, tab, LF or CR.
#[inline(always)]
pub fn is_blank(byte: u8) -> bool
    ensures { result ≡ is_blank byte }
{
    byte == b' ' || byte == b'\t' || byte == b'\n' || byte == b'\r'
}

/// How many blanks a text begins with.
fn blank_len(text: &str) -> usize
    ensures { result ≡ position_or_len (λ c. not (is_blank c)) text.now }
{
    text.as_bytes()
        .iter()
        .position(|byte| !is_blank(*byte))
        .unwrap_or(text.len())
}

/// How many bytes stand before the first blank of a text.
fn run_len(text: &str) -> usize
    ensures { result ≡ position_or_len is_blank text.now }
{
    text.as_bytes()
        .iter()
        .position(|byte| is_blank(*byte))
        .unwrap_or(text.len())
}

/// The tokens that are left of a text, in order. Going through all of them takes time linear in the text's length.
#[derive(Drop)]
pub struct Tokens<'a> {
    rest: &'a str,
}

impl<'a> Model for Tokens<'a> {
    ghost use Rattle.std.specs.Prelude.{ℕ, List};
    ghost use Rattle.std.specs.Str.{IsUtf8};
    ghost use Rattle.text_tokens.specs.Tokens.{tokens_of};

    ghost Value = { List (List ℕ) };

    ghost view = { λ t. tokens_of t.rest.now };

    ghost invariant = { λ t. IsUtf8 t.rest.now };
}

impl<'a> Tokens<'a> {
    /// The tokens of a text.
    pub fn of(text: &'a str) -> Tokens<'a>
        ensures { result ≡ tokens_of text.now }
    {
        Tokens { rest: text }
    }
}

impl<'a> Iterator for Tokens<'a> {
    type Item = &'a str;

    ghost next_gives = { YieldsFirstRef (λ tokens. tokens) };

    ghost remaining = { item_count (λ tokens. tokens) };

    fn next(&mut self) -> Option<&'a str> {
        let (_, text) = self.rest.split_at(blank_len(self.rest));
        if text.is_empty() {
            return None;
        }
        let (token, rest) = text.split_at(run_len(text));
        self.rest = rest;
        Some(token)
    }
}
