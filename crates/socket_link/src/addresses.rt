// Where the pipes between parties are.
ghost use Rattle.std.specs.Prelude.{◌≡◌, ◌↔◌, ◌⊎◌, ◌+◌, ◌*◌, ◌^◌, ◌≤◌, Some, IfSome, IsNone, length, slice_get};

use outer_io::Hosts;

/// The ports of a receiver, one for each sender.
pub const PORTS_OF_RECEIVER: u64 = 12;

/// The host and the port to which party `from` connects in order to send to party `to`: the host of `to`, and a port
/// for each sender and receiver, in twelves from `port` on. None where there is no such host or port.
pub fn pipe_address(hosts: &Hosts, port: u16, from: u32, to: u32) -> Option<(&str, u16)>
    ensures host { IfSome result (λ address. slice_get hosts.now to ≡ Some address.0.now) }
    ensures port { IfSome result (λ address. address.1 ≡ port + PORTS_OF_RECEIVER * to + from) }
    ensures none { IsNone result ↔ ((length hosts.now ≤ to) ⊎ (2 ^ 16 ≤ port + PORTS_OF_RECEIVER * to + from)) }
{
    let host = hosts.get(to as usize)?;
    let port = u64::from(port) + PORTS_OF_RECEIVER * u64::from(to) + u64::from(from);
    let port = u16::try_from(port).ok()?;
    Some((host, port))
}
