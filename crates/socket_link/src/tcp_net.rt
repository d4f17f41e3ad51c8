// A net over TCP.
ghost use Rattle.std.specs.Prelude.{◌≡◌, ◌-◌, IfOk, None, Some, map, replicate, vec_len};
ghost use Rattle.std.specs.Option.{option_map};
ghost use Rattle.socket_link.specs.Sockets.{inlet_reading, outlet_reading, tcp_links, unread, unsent, unused};
ghost use Rattle.socket_link.specs.TcpNets.{net_reading, Listens};

use crate::pipes::{accept_all, bind_all, connect_all};
use crate::{TcpInlet, TcpOutlet};
use outer_io::{Hosts, Links, Net, NetRefusal};
use std::alloc::{AllocError, Global};
use std::net::{Net as Sockets, TcpListener, TcpStream};
use std::time::Clock;

/// A net over TCP. The pipe from party p to party q is a connection of its own to host q, at port `port + 12 * q + p`.
/// What comes and goes over it is not told.
#[derive(Drop)]
pub struct TcpNet<'r, R> {
    rt: &'r R,
    listeners: Option<Vec<TcpListener>>,
    kept: Option<Links<TcpInlet, TcpOutlet>>,
    faults: u64,
}

impl<'r, R: Sockets<Listener = TcpListener, Stream = TcpStream> + Clock> TcpNet<'r, R> {
    /// A net over the sockets of this runtime, which listens nowhere yet.
    pub fn new(rt: &'r R) -> Self
        ensures { ⟦<TcpNet<'r, R> as Net>⟧.reading result ≡ net_reading 0 None }
    {
        TcpNet {
            rt,
            listeners: None,
            kept: None,
            faults: 0,
        }
    }

    /// Listens for each peer of party `me`, so that the peers can connect before this party asks for its links.
    pub fn listen(
        &mut self,
        alloc: Global,
        hosts: &Hosts,
        port: u16,
        me: u32,
        parties: u32,
    ) -> Result<(), NetRefusal>
        ensures { Listens (⟦<TcpNet<'r, R> as Net>⟧.reading self.old)
            (⟦<TcpNet<'r, R> as Net>⟧.reading self.new) result }
    {
        match bind_all(self.rt, alloc, hosts, port, me, parties) {
            Ok(listeners) => {
                self.listeners = Some(listeners);
                Ok(())
            }
            Err(NetRefusal::Memory) => Err(NetRefusal::Memory),
            Err(NetRefusal::Failed) => {
                self.faults = self.faults.saturating_add(1);
                Err(NetRefusal::Failed)
            }
        }
    }
}

impl<R: Sockets<Listener = TcpListener, Stream = TcpStream> + Clock> Net for TcpNet<'_, R> {
    type In = TcpInlet;

    type Out = TcpOutlet;

    ghost reading = { λ n. net_reading n.faults (option_map tcp_links n.kept) };

    fn links(
        &mut self,
        alloc: Global,
        hosts: &Hosts,
        port: u16,
        me: u32,
        parties: u32,
    ) -> Result<Links<TcpInlet, TcpOutlet>, NetRefusal> {
        let listeners = self.listeners.take();
        match open(self.rt, alloc, listeners, hosts, port, me, parties) {
            Ok(links) => Ok(links),
            Err(NetRefusal::Memory) => Err(NetRefusal::Memory),
            Err(NetRefusal::Failed) => {
                self.faults = self.faults.saturating_add(1);
                Err(NetRefusal::Failed)
            }
        }
    }

    fn back(&mut self, links: Links<TcpInlet, TcpOutlet>)
        ensures { net_reading self.new.faults (option_map tcp_links self.new.kept)
            ≡ net_reading self.old.faults (Some (tcp_links links)) }
    {
        self.kept = Some(links);
    }
}

// The links of party `me`, which listens first, unless it does already, then connects to its peers, and then accepts
// their connections.
fn open<R: Sockets<Listener = TcpListener, Stream = TcpStream> + Clock>(
    rt: &R,
    alloc: Global,
    listeners: Option<Vec<TcpListener>>,
    hosts: &Hosts,
    port: u16,
    me: u32,
    parties: u32,
) -> Result<Links<TcpInlet, TcpOutlet>, NetRefusal>
    ensures { IfOk result (λ links. tcp_links links ≡ unused (parties - 1)) }
{
    let listeners = match listeners {
        Some(listeners) => listeners,
        None => bind_all(rt, alloc, hosts, port, me, parties)?,
    };
    let outgoing = connect_all(rt, alloc, hosts, port, me, parties)?;
    let incoming = accept_all(alloc, &listeners)?;
    let peers = parties.saturating_sub(1) as usize;
    if incoming.len() != peers || outgoing.len() != peers {
        return Err(NetRefusal::Failed);
    }
    Ok(Links {
        inlets: inlets_over(alloc, incoming)?,
        outlets: outlets_over(alloc, outgoing)?,
    })
}

// An inlet over each connection.
fn inlets_over(alloc: Global, streams: Vec<TcpStream>) -> Result<Vec<TcpInlet>, AllocError>
    ensures { IfOk result (λ inlets. map inlet_reading inlets.items ≡ replicate (vec_len streams) unread) }
{
    let mut inlets = Vec::new(alloc);
    for stream in streams {
        inlets.push(TcpInlet::over(alloc, stream)?)?;
    }
    Ok(inlets)
}

// An outlet over each connection.
fn outlets_over(alloc: Global, streams: Vec<TcpStream>) -> Result<Vec<TcpOutlet>, AllocError>
    ensures { IfOk result (λ outlets. map outlet_reading outlets.items ≡ replicate (vec_len streams) unsent) }
{
    let mut outlets = Vec::new(alloc);
    for stream in streams {
        outlets.push(TcpOutlet::over(alloc, stream)?)?;
    }
    Ok(outlets)
}
