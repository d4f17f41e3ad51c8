//! The pairs of one party.
ghost use Rattle.std.specs.Prelude.{◌≡◌};
ghost use Rattle.std.specs.Iterator.{item_count, YieldsFirst};

use std::marker::Model;
use std::slice;

/// An iterator over the pairs of summands that are one party's duty. Contracts see the pairs that are left.
#[derive(Drop)]
pub struct Pairs<'a> {
    left: slice::Iter<'a, (u8, u8)>,
}

impl<'a> Model for Pairs<'a> {
    ghost use Rattle.std.specs.Prelude.{ℕ, List};
    ghost use Rattle.std.specs.Slice.Iter.{iter_rest};

    ghost Value = { List (ℕ × ℕ) };

    ghost view = { λ p. iter_rest p.left };
}

impl<'a> Pairs<'a> {
    pub(crate) fn of(pairs: &'a [(u8, u8)]) -> Pairs<'a>
        ensures { result ≡ pairs.now }
    {
        Pairs { left: pairs.iter() }
    }
}

impl<'a> Iterator for Pairs<'a> {
    type Item = (u8, u8);

    ghost next_gives = { YieldsFirst (λ left. left) };

    ghost remaining = { item_count (λ left. left) };

    fn next(&mut self) -> Option<(u8, u8)> {
        self.left.next().copied()
    }
}
