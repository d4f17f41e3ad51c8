//! The parts of a text that `+` joins.
ghost use Rattle.std.specs.Prelude.{◌≡◌};
ghost use Rattle.std.specs.Iterator.{YieldsFirstRef, item_count};
ghost use Rattle.group_text.specs.GroupTexts.{parts_of};

use std::marker::Model;

/// The parts that are left of a text, in order. Going through all of them takes time linear in the text's length.
#[derive(Drop)]
pub(crate) struct GroupParts<'a> {
    rest: Option<&'a str>,
}

impl<'a> Model for GroupParts<'a> {
    ghost use Rattle.std.specs.Prelude.{ℕ, List, []};
    ghost use Rattle.std.specs.Option.{option_map_or};
    ghost use Rattle.group_text.specs.GroupTexts.{parts_of};

    ghost Value = { List (List ℕ) };

    ghost view = { λ parts. option_map_or (λ text. parts_of text.now) parts.rest [] };
}

impl<'a> GroupParts<'a> {
    /// The parts of a text.
    pub(crate) fn of(text: &'a str) -> GroupParts<'a>
        ensures { result ≡ parts_of text.now }
    {
        GroupParts { rest: Some(text) }
    }
}

impl<'a> Iterator for GroupParts<'a> {
    type Item = &'a str;

    ghost next_gives = { YieldsFirstRef (λ parts. parts) };

    ghost remaining = { item_count (λ parts. parts) };

    fn next(&mut self) -> Option<&'a str> {
        let text = self.rest?;
        match text.split_once('+') {
            Some((part, rest)) => {
                self.rest = Some(rest);
                Some(part)
            }
            None => {
                self.rest = None;
                Some(text)
            }
        }
    }
}
