//! Two parties over TCP on this machine.
use outer_io::{Filled, Hosts, Net, NetRefusal, Outlet, fill};
use socket_link::TcpNet;
use std::alloc::{AllocError, Global};
use std::net::{Net as Sockets, TcpListener, TcpStream};
use std::test::Fail;
use std::thread;
use std::time::Clock;

/// The base of the ports.
const PORT: u16 = 21_000;

/// Two parties on this machine.
fn two_here(alloc: Global) -> Result<Hosts, AllocError> {
    let mut texts = Vec::new(alloc);
    texts.push(String::from_str(alloc, "127.0.0.1")?)?;
    texts.push(String::from_str(alloc, "127.0.0.1")?)?;
    Ok(Hosts::of(texts))
}

/// What a party hears that says its number and a full stop. It listens before it asks for its links, and a second net
/// finds its port taken.
fn meet<R: Sockets<Listener = TcpListener, Stream = TcpStream> + Clock>(
    rt: &R,
    alloc: Global,
    me: u8,
) -> Option<[u8; 2]> {
    let hosts = two_here(alloc).ok()?;
    let mut net = TcpNet::new(rt);
    net.listen(alloc, &hosts, PORT, u32::from(me), 2).ok()?;
    let mut second = TcpNet::new(rt);
    if second.listen(alloc, &hosts, PORT, u32::from(me), 2) != Err(NetRefusal::Failed) {
        return None;
    }
    let mut links = net.links(alloc, &hosts, PORT, u32::from(me), 2).ok()?;
    let outlet = links.outlets.first_mut()?;
    outlet.send(&[me, b'.']).ok()?;
    outlet.flush().ok()?;
    let mut heard = [0; 2];
    let filled = fill(links.inlets.first_mut()?, &mut heard);
    net.back(links);
    (filled == Filled::Full).then_some(heard)
}

#[test]
fn two_parties_meet_over_tcp(rt: HostRuntime) -> Result<(), Fail> {
    let alloc = rt.alloc();
    let (first, second) = thread::join(&rt, || meet(&rt, alloc, 0), || meet(&rt, alloc, 1));
    assert!(rt; first == Some([1, b'.']), "party 0 heard something else");
    assert!(rt; second == Some([0, b'.']), "party 1 heard something else");
    Ok(())
}
