//! The lines of a text.
ghost use Rattle.std.specs.Prelude.{◌<◌, length};
ghost use Rattle.line_grammar.specs.Lines.{IsCut};

/// What stands before the first LF of a text, and what follows it.
pub fn cut_line(text: &[u8]) -> (&[u8], &[u8])
    ensures cut { IsCut text.now result.0.now result.1.now }
    ensures shorter { 0 < length text.now → length result.1.now < length text.now }
{
    for at in 0..text.len() {
        if text[at] == b'\n' {
            return (&text[..at], &text[at + 1..]);
        }
    }
    (text, &[])
}
