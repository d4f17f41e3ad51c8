//! Cutting a text into tokens.
ghost use Rattle.std.specs.Prelude.{◌≡◌, ◌∷◌, [], ◌<◌, ◌≤◌, length, MatchOption, IfSome};
ghost use Rattle.text_tokens.specs.RunTokens.{token_at, first_length, tokens_after};

use crate::runs::{blank_length, number_length, sign_length, word_length};
use crate::token_language::TokenLanguage;

/// A token with the place where it begins, and the place after its last byte.
#[derive(Clone, Copy, Debug, PartialEq, Eq)]
pub struct Cut<T> {
    pub at: usize,
    pub end: usize,
    pub token: T,
}

/// The first token of a text that begins with no blank, which stands at this place, and how many bytes it has.
fn first_token<L: TokenLanguage>(language: L, at: usize, text: &[u8]) -> (L::Token, usize)
    requires { 0 < length text.now }
    ensures token { result.0 ≡ token_at (L.language language) at text.now }
    ensures length { result.1 ≡ first_length (L.language language) text.now }
    ensures some { 0 < result.1 }
    ensures within { result.1 ≤ length text.now }
{
    if text[0].is_ascii_alphabetic() {
        let length = word_length(text);
        return (language.word(at, &text[..length]), length);
    }
    if text[0].is_ascii_digit() {
        return (language.number(at), number_length(text));
    }
    if language.is_sign(text[0]) {
        let length = sign_length(language, text);
        return (language.sign(at, &text[..length]), length);
    }
    (language.symbol(at, text[0]), 1)
}

/// The first token from this place on, which is no place inside a word, a number or a sign.
pub fn next_token<L: TokenLanguage>(language: L, text: &[u8], from: usize) -> Option<Cut<L::Token>>
    requires { from ≤ length text.now }
    ensures found { MatchOption result (tokens_after (L.language language) text.now from ≡ [])
        (λ cut. tokens_after (L.language language) text.now from
        ≡ record { at = cut.at; token = cut.token } ∷ tokens_after (L.language language) text.now cut.end) }
    ensures ahead { IfSome result (λ cut. (from < cut.end) × (cut.end ≤ length text.now)) }
{
    let at = from + blank_length(language, &text[from..]);
    if at == text.len() {
        return None;
    }
    let (token, length) = first_token(language, at, &text[at..]);
    Some(Cut {
        at,
        end: at + length,
        token,
    })
}
