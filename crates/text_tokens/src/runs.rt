//! The runs that stand in a text.
ghost use Rattle.std.specs.Prelude.{◌≡◌, ◌≤◌, length, drop};
ghost use Rattle.std.specs.List.{prefix_len, take_while};
ghost use Rattle.std.specs.Char.{is_ascii_digit};
ghost use Rattle.text_tokens.specs.RunTokens.{is_word_byte};

use crate::token_language::TokenLanguage;

/// How many blanks stand at the front of the text.
pub(crate) fn blank_length<L: TokenLanguage>(language: L, text: &[u8]) -> usize
    ensures is { result ≡ prefix_len (L.language language).is_blank text.now }
    ensures within { result ≤ length text.now }
{
    text.iter()
        .take_while(|byte| language.is_blank(**byte))
        .count()
}

/// How many bytes of signs stand at the front of the text.
pub(crate) fn sign_length<L: TokenLanguage>(language: L, text: &[u8]) -> usize
    ensures is { result ≡ prefix_len (L.language language).is_sign text.now }
    ensures within { result ≤ length text.now }
{
    text.iter()
        .take_while(|byte| language.is_sign(**byte))
        .count()
}

/// How many letters, digits and `_` of ASCII stand at the front of the text.
pub(crate) fn word_length(text: &[u8]) -> usize
    ensures is { result ≡ prefix_len is_word_byte text.now }
    ensures within { result ≤ length text.now }
{
    text.iter()
        .take_while(|byte| byte.is_ascii_alphanumeric() || **byte == b'_')
        .count()
}

/// How many digits stand at the front of the text.
pub(crate) fn number_length(text: &[u8]) -> usize
    ensures is { result ≡ prefix_len is_ascii_digit text.now }
    ensures within { result ≤ length text.now }
{
    text.iter().take_while(|byte| byte.is_ascii_digit()).count()
}

/// The letters, digits and `_` that stand at this place, none where the text has ended.
pub fn word_bytes(text: &[u8], at: usize) -> &[u8]
    ensures { result.now ≡ take_while is_word_byte (drop at text.now) }
{
    let rest = &text[at.min(text.len())..];
    &rest[..word_length(rest)]
}

/// The same, as a text.
pub fn word_at(text: &[u8], at: usize) -> &str
    ensures { result.now ≡ take_while is_word_byte (drop at text.now) }
{
    match str::from_utf8(word_bytes(text, at)) {
        Ok(found) => found,
        Err(_) => "",
    }
}

/// The digits that stand at this place, none where the text has ended.
pub fn number_at(text: &[u8], at: usize) -> &str
    ensures { result.now ≡ take_while is_ascii_digit (drop at text.now) }
{
    let rest = &text[at.min(text.len())..];
    match str::from_utf8(&rest[..number_length(rest)]) {
        Ok(found) => found,
        Err(_) => "",
    }
}
