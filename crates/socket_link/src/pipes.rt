// Connections to the peers, and from them.
use crate::pipe_address;
use outer_io::{Hosts, NetRefusal};
use std::alloc::{AllocError, Global};
use std::io::ErrorKind;
use std::net::{Net, TcpListener, TcpStream};
use std::time::{Clock, Duration};
use std::{io, thread};

/// How often a refused connect is tried for each peer.
const TRIES: u32 = 1_000_000;

/// How long a party waits before it tries again, in milliseconds.
const PAUSE: u64 = 1;

/// One listener for each peer, for the pipe from that peer to party `me`.
pub fn bind_all<R: Net<Listener = TcpListener, Stream = TcpStream>>(
    rt: &R,
    alloc: Global,
    hosts: &Hosts,
    port: u16,
    me: u32,
    parties: u32,
) -> Result<Vec<TcpListener>, NetRefusal> {
    let mut listeners = Vec::new(alloc);
    for peer in 0..parties {
        if peer != me {
            let address = pipe_address(hosts, port, peer, me).ok_or(NetRefusal::Failed)?;
            let listener = TcpListener::bind(rt, address).map_err(refusal)?;
            listeners.push(listener).map_err(AllocError::from)?;
        }
    }
    Ok(listeners)
}

/// One connection on each listener.
pub fn accept_all(alloc: Global, listeners: &[TcpListener]) -> Result<Vec<TcpStream>, NetRefusal> {
    let mut streams = Vec::new(alloc);
    for listener in listeners {
        let (stream, _) = listener.accept().map_err(refusal)?;
        streams.push(stream).map_err(AllocError::from)?;
    }
    Ok(streams)
}

/// A connection to each peer, for the pipe from party `me` to that peer.
pub fn connect_all<R: Net<Listener = TcpListener, Stream = TcpStream> + Clock>(
    rt: &R,
    alloc: Global,
    hosts: &Hosts,
    port: u16,
    me: u32,
    parties: u32,
) -> Result<Vec<TcpStream>, NetRefusal> {
    let mut streams = Vec::new(alloc);
    for peer in 0..parties {
        if peer != me {
            let address = pipe_address(hosts, port, me, peer).ok_or(NetRefusal::Failed)?;
            let stream = connect(rt, address).map_err(refusal)?;
            streams.push(stream).map_err(AllocError::from)?;
        }
    }
    Ok(streams)
}

// A connection that sends without delay. Where the peer does not listen yet, it is tried again after a pause.
fn connect<R: Net<Listener = TcpListener, Stream = TcpStream> + Clock>(
    rt: &R,
    address: (&str, u16),
) -> io::Result<TcpStream> {
    for _ in 1..TRIES {
        match TcpStream::connect(rt, address) {
            Err(error) if error.kind() == ErrorKind::ConnectionRefused => {
                thread::sleep(rt, Duration::from_millis(PAUSE));
            }
            answer => return undelayed(answer),
        }
    }
    undelayed(TcpStream::connect(rt, address))
}

// A stream without Nagle's delay.
fn undelayed(answer: io::Result<TcpStream>) -> io::Result<TcpStream> {
    let stream = answer?;
    stream.set_nodelay(true)?;
    Ok(stream)
}

// What an error of the system is to the party that asks for links; want of memory is no fault.
fn refusal(error: io::Error) -> NetRefusal {
    if error.kind() == ErrorKind::OutOfMemory {
        NetRefusal::Memory
    } else {
        NetRefusal::Failed
    }
}
