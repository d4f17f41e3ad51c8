//! Where each part of a numbered row begins.
ghost use Rattle.std.specs.Prelude.{◌≡◌, ◌+◌, ◌-◌, ◌<◌, ◌≤◌, length, slice_index};
ghost use Rattle.std.specs.List.Sorted.{IsNonDecreasing};

use std::marker::Model;

/// Where each part begins, counted over all parts before it, and at the end where the next one would: the messages
/// of the slots of a session, or the words or deals of a party's sessions.
#[derive(Drop)]
pub struct Starts {
    list: Vec<u32>,
}

impl Model for Starts {
    ghost use Rattle.std.specs.Prelude.{List, ℕ};

    ghost Value = { List ℕ };

    ghost view = { λ s. s.list.items };
}

impl Starts {
    /// These starts.
    pub fn of(list: Vec<u32>) -> Starts
        ensures { result ≡ list.items }
    {
        Starts { list }
    }

    /// Where part k begins.
    pub fn at(&self, k: u32) -> u32
        requires { k < length self.now }
        ensures { result ≡ slice_index self.now k }
    {
        self.list[k as usize]
    }

    /// The part in which place `n` lies: the last that begins there or before it.
    pub fn part_of(&self, n: u32) -> u32
        requires some { 0 < length self.now }
        requires few { length self.now ≤ 4294967295 }
        requires rising { IsNonDecreasing self.now }
        requires begin { slice_index self.now 0 ≤ n }
        requires end { n < slice_index self.now (length self.now - 1) }
        ensures there { result + 1 < length self.now }
        ensures begin { slice_index self.now result ≤ n }
        ensures end { n < slice_index self.now (result + 1) }
    {
        let past = self.list.partition_point(|start| *start <= n);
        (past - 1) as u32
    }
}
