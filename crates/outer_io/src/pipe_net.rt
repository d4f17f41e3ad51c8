// A net in memory.
ghost use Rattle.std.specs.Prelude.{◌≡◌, ◌↔◌, ◌-◌, IsTrue, Some, None};
ghost use Rattle.std.specs.Option.{ForSome};
ghost use Rattle.outer_io.specs.Links.{HasPeers, are_fresh};
ghost use Rattle.outer_io.specs.Pipes.{pipe_links};

use crate::{Hosts, Links, ListInlet, Net, NetRefusal, VecOutlet};
use std::alloc::Global;

/// A net in memory. To the meeting that it expects it gives, once, the links that it was made with; at any other it
/// fails. It has a list of the calls that are to fail.
#[derive(Drop)]
pub struct PipeNet {
    hosts: Hosts,
    port: u16,
    me: u32,
    parties: u32,
    links: Option<Links<ListInlet, VecOutlet>>,
    kept: Option<Links<ListInlet, VecOutlet>>,
    failing: Vec<u64>,
    calls: u64,
    faults: u64,
    ghost peers: { ForSome links (λ l. HasPeers (parties - 1) (pipe_links l)) },
    ghost fresh: { ForSome links (λ l. IsTrue (are_fresh (pipe_links l))) },
}

impl PipeNet {
    ghost use Rattle.outer_io.specs.PipeNets.{pipe_reading, meeting_of};
    ghost use Rattle.outer_io.specs.Memory.{all_past};
    ghost use Rattle.outer_io.specs.Links.{are_steady};
    ghost use Rattle.std.specs.Prelude.{◌&&◌};
    ghost use Rattle.std.specs.Option.{option_map};

    /// A net that expects party `me` of `parties` to ask for its links, with these hosts and this port. The calls of
    /// the numbers in `failing` fail, counted from 0.
    pub fn new(
        hosts: Hosts,
        port: u16,
        me: u32,
        parties: u32,
        links: Links<ListInlet, VecOutlet>,
        failing: Vec<u64>,
    ) -> Self
        requires peers { HasPeers (parties - 1) (pipe_links links) }
        requires fresh { IsTrue (are_fresh (pipe_links links)) }
        ensures { pipe_reading result ≡ record {
          faults = 0;
          steady = all_past failing.items 0 && are_steady (pipe_links links);
          expects = Some (record { hosts = hosts; port = port; me = me; parties = parties });
          offers = λ peers. pipe_links links;
          kept = None;
        } }
    {
        PipeNet {
            hosts,
            port,
            me,
            parties,
            links: Some(links),
            kept: None,
            failing,
            calls: 0,
            faults: 0,
        }
    }

    /// The links that were handed back last.
    pub fn kept(&self) -> Option<&Links<ListInlet, VecOutlet>>
        ensures { option_map (λ links. pipe_links links.now) result ≡ (pipe_reading self.now).kept }
    {
        self.kept.as_ref()
    }

    // Whether this is the meeting that the net expects.
    fn expects(&self, hosts: &Hosts, port: u16, me: u32, parties: u32) -> bool
        ensures { IsTrue result
            ↔ (record { hosts = hosts.now; port = port; me = me; parties = parties } ≡ meeting_of self.now) }
    {
        port == self.port && me == self.me && parties == self.parties && hosts.same(&self.hosts)
    }
}

impl Net for PipeNet {
    ghost use Rattle.outer_io.specs.PipeNets.{pipe_reading};

    type In = ListInlet;

    type Out = VecOutlet;

    ghost reading = { pipe_reading };

    fn links(
        &mut self,
        _alloc: Global,
        hosts: &Hosts,
        port: u16,
        me: u32,
        parties: u32,
    ) -> Result<Links<ListInlet, VecOutlet>, NetRefusal> {
        let call = self.calls;
        self.calls = call.saturating_add(1);
        if self.failing.contains(&call) {
            self.faults = self.faults.saturating_add(1);
            return Err(NetRefusal::Failed);
        }
        if !self.expects(hosts, port, me, parties) {
            self.faults = self.faults.saturating_add(1);
            return Err(NetRefusal::Failed);
        }
        let Some(links) = self.links.take() else {
            self.faults = self.faults.saturating_add(1);
            return Err(NetRefusal::Failed);
        };
        Ok(links)
    }

    fn back(&mut self, links: Links<ListInlet, VecOutlet>)
        ensures { pipe_reading self.new ≡ record (pipe_reading self.old) { kept = Some (pipe_links links) } }
    {
        self.kept = Some(links);
    }
}
