//! The outside, as the program sees it: files by name, sinks for text, links of bytes to other parties, and jobs that
//! are done beside their caller, each with a count of faults that never falls;
//! and what is told of the steps of workers.
#![tactic(auto)]

mod blocks;
mod files;
mod gather;
mod inlet;
mod inline_spawner;
mod list_inlet;
mod map_files;
mod net;
mod outlet;
mod pace;
mod pipe_net;
mod sink;
mod std_files;
mod std_sink;
mod task;
mod vec_outlet;
mod vec_sink;

pub use blocks::Blocks;
pub use files::{Files, ReadRefusal};
pub use gather::Gather;
pub use inlet::{Filled, Got, Inlet, a_steady_inlet_fills_what_it_can, an_empty_inlet_ends, fill};
pub use inline_spawner::InlineSpawner;
pub use list_inlet::ListInlet;
pub use map_files::MapFiles;
pub use net::{Hosts, Links, Net, NetRefusal};
pub use outlet::Outlet;
pub use pace::{NoPace, Pace};
pub use pipe_net::PipeNet;
pub use sink::{Failed, Sink, write_pieces};
pub use std_files::StdFiles;
pub use std_sink::StdSink;
pub use task::{Spawner, Task};
pub use vec_outlet::VecOutlet;
pub use vec_sink::VecSink;
