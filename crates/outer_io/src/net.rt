// Links to the other parties.
ghost use Rattle.std.specs.Prelude.{◌≡◌, ◌↔◌, ◌≤◌, Some, IfSome, IsNone, IsTrue, map, length, slice_get};
ghost use Rattle.std.specs.String.{string_bytes};
ghost use Rattle.outer_io.specs.declared.net.NetRefusal.TheVariants.{Memory};
ghost use Rattle.outer_io.specs.Links.{NetReading, Connects, links_reading};

use crate::{Inlet, Outlet};
use std::alloc::{AllocError, Global};
use std::marker::Model;

/// The host of each party, by its number. Contracts see a list of texts.
#[derive(Drop)]
pub struct Hosts {
    texts: Vec<String>,
}

impl Model for Hosts {
    ghost use Rattle.std.specs.Prelude.{ℕ, List, map};
    ghost use Rattle.std.specs.String.{string_bytes};

    ghost Value = { List (List ℕ) };

    ghost view = { λ h. map string_bytes h.texts.items };
}

impl Hosts {
    /// These texts.
    pub fn of(texts: Vec<String>) -> Hosts
        ensures { result ≡ map string_bytes texts.items }
    {
        Hosts { texts }
    }

    /// Whether these are the same hosts.
    pub fn same(&self, other: &Hosts) -> bool
        ensures { IsTrue result ↔ (self.now ≡ other.now) }
    {
        self.texts == other.texts
    }

    /// How many hosts there are.
    pub fn len(&self) -> usize
        ensures { result ≡ length self.now }
    {
        self.texts.len()
    }

    /// The host of this party, if there is one.
    pub fn get(&self, party: usize) -> Option<&str>
        ensures found { IfSome result (λ text. slice_get self.now party ≡ Some text.now) }
        ensures none { IsNone result ↔ (length self.now ≤ party) }
    {
        self.texts.get(party).map(|text| text.as_str())
    }
}

/// An inlet and an outlet for each peer, in the order of the parties.
#[derive(Drop)]
pub struct Links<I, O> {
    pub inlets: Vec<I>,
    pub outlets: Vec<O>,
}

/// Why there are no links.
#[derive(Clone, Copy, Debug, PartialEq, Eq)]
pub enum NetRefusal {
    /// The outside failed.
    Failed,
    /// Out of memory.
    Memory,
}

impl From<AllocError> for NetRefusal {
    ghost from_gives = { λ _ refusal. refusal ≡ Memory };

    fn from(_: AllocError) -> NetRefusal {
        NetRefusal::Memory
    }
}

/// What gives a party its links to the others, and takes them back.
pub trait Net {
    /// Where bytes come from.
    type In: Inlet;

    /// Where bytes go to.
    type Out: Outlet;

    /// How often the outside has failed, whether the net is steady, the meeting that it then expects, what the links
    /// show that it offers, and what those showed that were handed back.
    ghost reading: { Self → NetReading };

    /// The links of party `me` to each of its peers.
    fn links(
        &mut self,
        alloc: Global,
        hosts: &Hosts,
        port: u16,
        me: u32,
        parties: u32,
    ) -> Result<Links<Self::In, Self::Out>, NetRefusal>
        ensures { Connects (links_reading Self.In.reading Self.Out.reading)
            (record { hosts = hosts.now; port = port; me = me; parties = parties })
            (reading self.old) (reading self.new) result };

    /// Takes the links back, as they are.
    fn back(&mut self, links: Links<Self::In, Self::Out>)
        ensures { reading self.new ≡ record (reading self.old) {
          kept = Some (links_reading Self.In.reading Self.Out.reading links);
        } };
}
