//! Links over TCP, and jobs in threads of their own: the traits of the outside over what the system has. What comes
//! over a link is not told.
#![tactic(auto)]

mod addresses;
mod pipes;
mod tcp_inlet;
mod tcp_net;
mod tcp_outlet;
mod thread_spawner;

pub use addresses::{PORTS_OF_RECEIVER, pipe_address};
pub use tcp_inlet::TcpInlet;
pub use tcp_net::TcpNet;
pub use tcp_outlet::TcpOutlet;
pub use thread_spawner::{ThreadJob, ThreadSpawner};
