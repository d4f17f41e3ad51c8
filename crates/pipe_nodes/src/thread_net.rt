//! A net between threads.
ghost use Rattle.std.specs.Prelude.{◌≡◌, ◌-◌, IfOk, None, Some, map, replicate, vec_len};
ghost use Rattle.std.specs.Option.{option_map};
ghost use Rattle.socket_link.specs.Sockets.{unread, unsent, unused};
ghost use Rattle.socket_link.specs.TcpNets.{net_reading};
ghost use Rattle.pipe_nodes.specs.ThreadLinks.{inlet_reading, outlet_reading, thread_links};

use crate::pipe::{Receiver, Sender};
use crate::thread_inlet::ThreadInlet;
use crate::thread_outlet::ThreadOutlet;
use outer_io::{Hosts, Links, Net, NetRefusal};
use std::alloc::{AllocError, Global};

/// The ends of the pipes of party `me`, from and to each peer in order.
#[derive(Drop)]
pub struct PipeEnds {
    pub me: usize,
    pub incoming: Vec<Receiver>,
    pub outgoing: Vec<Sender>,
}

/// A net that gives one party, once, links over its ends of the pipes between threads.
#[derive(Drop)]
pub struct ThreadNet {
    ends: Option<PipeEnds>,
    kept: Option<Links<ThreadInlet, ThreadOutlet>>,
    faults: u64,
}

impl ThreadNet {
    /// A net that gives their party links over these ends.
    pub fn new(ends: PipeEnds) -> ThreadNet
        ensures { ⟦<ThreadNet as Net>⟧.reading result ≡ net_reading 0 None }
    {
        ThreadNet {
            ends: Some(ends),
            kept: None,
            faults: 0,
        }
    }
}

impl Net for ThreadNet {
    type In = ThreadInlet;

    type Out = ThreadOutlet;

    ghost reading = { λ n. net_reading n.faults (option_map thread_links n.kept) };

    fn links(
        &mut self,
        alloc: Global,
        _hosts: &Hosts,
        _port: u16,
        me: u32,
        parties: u32,
    ) -> Result<Links<ThreadInlet, ThreadOutlet>, NetRefusal> {
        let ends = self.ends.take();
        match open(alloc, ends, me, parties) {
            Ok(links) => Ok(links),
            Err(NetRefusal::Memory) => Err(NetRefusal::Memory),
            Err(NetRefusal::Failed) => {
                self.faults = self.faults.saturating_add(1);
                Err(NetRefusal::Failed)
            }
        }
    }

    fn back(&mut self, links: Links<ThreadInlet, ThreadOutlet>)
        ensures { net_reading self.new.faults (option_map thread_links self.new.kept)
            ≡ net_reading self.old.faults (Some (thread_links links)) }
    {
        self.kept = Some(links);
    }
}

// Links over these ends, if they are those of party `me` of `parties`.
fn open(
    alloc: Global,
    ends: Option<PipeEnds>,
    me: u32,
    parties: u32,
) -> Result<Links<ThreadInlet, ThreadOutlet>, NetRefusal>
    ensures { IfOk result (λ links. thread_links links ≡ unused (parties - 1)) }
{
    let Some(ends) = ends else {
        return Err(NetRefusal::Failed);
    };
    let PipeEnds {
        me: party,
        incoming,
        outgoing,
    } = ends;
    let peers = parties.saturating_sub(1) as usize;
    if party != me as usize || incoming.len() != peers || outgoing.len() != peers {
        return Err(NetRefusal::Failed);
    }
    Ok(Links {
        inlets: inlets_over(alloc, incoming)?,
        outlets: outlets_over(alloc, outgoing)?,
    })
}

// An inlet over each end.
fn inlets_over(alloc: Global, ends: Vec<Receiver>) -> Result<Vec<ThreadInlet>, AllocError>
    ensures { IfOk result (λ inlets. map inlet_reading inlets.items ≡ replicate (vec_len ends) unread) }
{
    let mut inlets = Vec::new(alloc);
    for end in ends {
        inlets.push(ThreadInlet::over(end))?;
    }
    Ok(inlets)
}

// An outlet over each end.
fn outlets_over(alloc: Global, ends: Vec<Sender>) -> Result<Vec<ThreadOutlet>, AllocError>
    ensures { IfOk result (λ outlets. map outlet_reading outlets.items ≡ replicate (vec_len ends) unsent) }
{
    let mut outlets = Vec::new(alloc);
    for end in ends {
        outlets.push(ThreadOutlet::over(end))?;
    }
    Ok(outlets)
}
