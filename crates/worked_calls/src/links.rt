//! Links in memory between c and its peers.
ghost use Rattle.std.specs.Prelude.{IsTrue, IfOk};
ghost use Rattle.outer_io.specs.Links.{HasPeers, are_fresh, is_fresh_inlet, is_fresh_outlet};
ghost use Rattle.outer_io.specs.Memory.{inlet_reading, outlet_reading};
ghost use Rattle.outer_io.specs.Pipes.{pipe_links};

use crate::talks::{SAID_TO_C, first_bytes};
use outer_io::{Hosts, Links, ListInlet, PipeNet, VecOutlet};
use std::alloc::{AllocError, Global};

/// The number of a call that never comes.
pub const NEVER: u64 = u64::MAX;

/// A length of pieces in which all comes at once.
pub const ALL: usize = 200;

/// The link of a peer: how many bytes of its talk it says, in pieces of at most how many; which read of it and which
/// send or flush to it fails, counted from 0; and how many bytes it takes.
#[derive(Clone, Copy)]
pub struct Link {
    pub says: usize,
    pub piece: usize,
    pub failing_read: u64,
    pub failing_send: u64,
    pub room: usize,
}

/// A link over which all is said at once, and nothing fails.
pub const WHOLE: Link = Link {
    says: ALL,
    piece: ALL,
    failing_read: NEVER,
    failing_send: NEVER,
    room: ALL,
};

/// The ends of a link, over which this is said.
fn ends_of(
    alloc: Global,
    link: &Link,
    says: &'static [u8],
) -> Result<(ListInlet, VecOutlet), AllocError>
    ensures inlet { IfOk result (λ ends. IsTrue (is_fresh_inlet (inlet_reading ends.0))) }
    ensures outlet { IfOk result (λ ends. IsTrue (is_fresh_outlet (outlet_reading ends.1))) }
{
    let says = Vec::from_slice(alloc, first_bytes(says, link.says))?;
    let pieces = vec![in alloc; link.piece; 300]?;
    let reads = Vec::from_slice(alloc, &[link.failing_read])?;
    let sends = Vec::from_slice(alloc, &[link.failing_send])?;
    let taken = Vec::with_capacity(alloc, link.room)?;
    let outlet = VecOutlet::new(taken, link.room, sends);
    Ok((ListInlet::new(says, pieces, reads), outlet))
}

/// The links of a and b.
fn both_links(alloc: Global, links: &[Link; 2]) -> Result<Links<ListInlet, VecOutlet>, AllocError>
    ensures peers { IfOk result (λ links. HasPeers 2 (pipe_links links)) }
    ensures fresh { IfOk result (λ links. IsTrue (are_fresh (pipe_links links))) }
{
    let (first_inlet, first_outlet) = ends_of(alloc, &links[0], SAID_TO_C[0])?;
    let (second_inlet, second_outlet) = ends_of(alloc, &links[1], SAID_TO_C[1])?;
    Ok(Links {
        inlets: Vec::from_array(alloc, [first_inlet, second_inlet])?,
        outlets: Vec::from_array(alloc, [first_outlet, second_outlet])?,
    })
}

/// The hosts of the parties.
fn hosts(alloc: Global) -> Result<Hosts, AllocError> {
    let mut hosts = Vec::new(alloc);
    for host in ["first.example", "second.example", "third.example"] {
        hosts.push(String::from_str(alloc, host)?)?;
    }
    Ok(Hosts::of(hosts))
}

/// The net that gives these links to c.
pub fn net_of(alloc: Global, links: &[Link; 2]) -> Result<PipeNet, AllocError> {
    let hosts = hosts(alloc)?;
    let links = both_links(alloc, links)?;
    Ok(PipeNet::new(hosts, 4000, 2, 3, links, Vec::new(alloc)))
}
