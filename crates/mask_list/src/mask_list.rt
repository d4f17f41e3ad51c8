//! Masks of groups in rising order.

use std::alloc::{AllocError, Global};
use std::marker::Model;

/// Masks of groups, each once and in rising order, so that a mask is found by halving. What is kept for each group
/// stands beside them, in the same order. Contracts see the list.
#[derive(Drop)]
pub struct MaskList {
    masks: Vec<u32>,
}

impl Model for MaskList {
    ghost use Rattle.std.specs.Prelude.{ℕ, List};
    ghost use Rattle.std.specs.List.Sorted.{IsStrictlyIncreasing};

    ghost Value = { List ℕ };

    ghost view = { λ l. l.masks.items };

    ghost invariant = { λ l. IsStrictlyIncreasing l.masks.items };
}

impl MaskList {
    ghost use Rattle.std.specs.Prelude.{◌≡◌, ◌<◌, [], ◌∷◌, ◌++◌, OnOk, OnErr, length, slice_index};
    ghost use Rattle.std.specs.List.{Contains};
    ghost use Rattle.std.specs.List.Sorted.{IsStrictlyIncreasing};
    ghost use Rattle.mask_list.specs.Masks.{AreMasksOf};

    /// No masks.
    pub fn new(alloc: Global) -> MaskList
        ensures { result ≡ [] }
    {
        MaskList {
            masks: Vec::new(alloc),
        }
    }

    /// Adds a mask, if it isn't there.
    pub fn add(&mut self, mask: u32) -> Result<(), AllocError>
        ensures added { OnOk result (AreMasksOf self.new (self.old ++ mask ∷ [])) }
        ensures fault { OnErr result (self.new ≡ self.old) }
    {
        if let Err(place) = self.masks.binary_search(&mask) {
            self.masks.insert(place, mask)?;
        }
        Ok(())
    }

    /// The masks, from the least on.
    pub fn as_slice(&self) -> &[u32]
        ensures is { result.now ≡ self.now }
        ensures rising { IsStrictlyIncreasing self.now }
    {
        &self.masks
    }

    /// Where a mask of the list stands in it.
    pub fn place(&self, mask: u32) -> usize
        requires { Contains self.now mask }
        ensures within { result < length self.now }
        ensures is { slice_index self.now result ≡ mask }
    {
        match self.masks.binary_search(&mask) {
            Ok(place) | Err(place) => place,
        }
    }
}
