//! The lines of a text.
ghost use Rattle.std.specs.Prelude.{◌≡◌, ◌<◌, ◌∷◌, [], true, false, MatchOption, length};
ghost use Rattle.view_check.specs.Lines.{lines_of, without_cr};
ghost use Rattle.view_check.specs.MessageLines.{StandsFirst};

use crate::parts::cut;
use crate::written_line::after_line;
use job_plan::Key;
use party_names::Names;
use std::marker::Model;

/// A line without the CR that stands before its LF.
fn without_cr(line: &[u8]) -> &[u8]
    ensures { result.now ≡ without_cr line.now }
{
    if !line.is_empty() && line[line.len() - 1] == b'\r' {
        return &line[..line.len() - 1];
    }
    line
}

/// The lines that are left of a text, in order. They end at LF. Going through all of them takes time linear in the
/// text's length.
#[derive(Drop)]
pub(crate) struct TextLines<'a> {
    rest: &'a [u8],
}

impl<'a> Model for TextLines<'a> {
    ghost use Rattle.std.specs.Prelude.{ℕ, List};
    ghost use Rattle.view_check.specs.Lines.{lines_of};

    ghost Value = { List (List ℕ) };

    ghost view = { λ lines. lines_of lines.rest.now };
}

impl<'a> TextLines<'a> {
    /// The lines of a text.
    pub(crate) fn of(text: &'a [u8]) -> TextLines<'a>
        ensures { result ≡ lines_of text.now }
    {
        TextLines { rest: text }
    }

    /// The next line, if one is left.
    pub(crate) fn next_line(&mut self) -> Option<&'a [u8]>
        ensures { MatchOption result ((self.old ≡ []) × (self.new ≡ []))
            (λ line. self.old ≡ line.now ∷ self.new) }
    {
        if self.rest.is_empty() {
            return None;
        }
        match cut(b'\n', self.rest) {
            Some((line, rest)) => {
                self.rest = rest;
                Some(without_cr(line))
            }
            None => {
                let line = self.rest;
                self.rest = &[];
                Some(line)
            }
        }
    }

    /// Takes the next line where it is the line of this message and word, just as it is written, and
    /// tells whether it did. It looks at no byte behind that line.
    pub(crate) fn take_written(&mut self, names: &Names, key: Key, word: u64) -> bool
        requires sender { key.sender < length names.now }
        requires receiver { key.receiver < length names.now }
        ensures taken { result ≡ true → StandsFirst names.now key word self.old self.new }
        ensures left { result ≡ false → self.new ≡ self.old }
    {
        names.recall();
        let Some(rest) = after_line(self.rest, names, key, word) else {
            return false;
        };
        self.rest = rest;
        true
    }
}
