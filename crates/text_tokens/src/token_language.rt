//! What a language tells of its tokens.
ghost use Rattle.std.specs.Prelude.{◌≡◌};
ghost use Rattle.text_tokens.specs.RunTokens.{Language};

/// A language of tokens. A word, a number, a sign and a symbol may be told by the place in the text where they begin.
pub trait TokenLanguage: Copy {
    type Token: Copy;

    /// The language.
    ghost language: { Self → Language Self.Token };

    /// Whether the byte is a blank, which separates tokens and belongs to none.
    fn is_blank(self, byte: u8) -> bool
        ensures { result ≡ (language self).is_blank byte };

    /// The token of a word that begins at this place.
    fn word(self, at: usize, word: &[u8]) -> Self::Token
        ensures { result ≡ (language self).word at word.now };

    /// The token of a number that begins at this place.
    fn number(self, at: usize) -> Self::Token
        ensures { result ≡ (language self).number at };

    /// Whether signs are made of the byte.
    fn is_sign(self, byte: u8) -> bool
        ensures { result ≡ (language self).is_sign byte };

    /// The token of a sign that begins at this place.
    fn sign(self, at: usize, sign: &[u8]) -> Self::Token
        ensures { result ≡ (language self).sign at sign.now };

    /// The token of another byte, a symbol, at this place.
    fn symbol(self, at: usize, byte: u8) -> Self::Token
        ensures { result ≡ (language self).symbol at byte };
}
