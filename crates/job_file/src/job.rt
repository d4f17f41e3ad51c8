//! Jobs.
use crate::layout::SessionLayout;
use crate::owner::JobOwner;
use crate::products::Products;
use mpc_ring::Ring;
use outer_io::Hosts;
use party_names::{NameText, Names};
use party_set::Group;

/// What tells which groups are tolerated: the text of a formula, which is false for them, or a list of groups, in which
/// they lie.
#[derive(Drop)]
pub enum Adversary {
    /// A formula (version 1).
    Formula(NameText),
    /// Groups (version 2).
    Tolerated(Vec<Group>),
}

/// A session of a job: the file of its circuit, how that tells it, how products are made, whether gates go in layers,
/// what gives each input value, and the group that reads each output value.
#[derive(Drop)]
pub struct JobSession {
    pub circuit: NameText,
    pub layout: SessionLayout,
    pub products: Products,
    pub layered_gates: bool,
    pub owners: Vec<JobOwner>,
    pub readers: Vec<Group>,
}

/// A job. Where the file does not give them, hosts are empty, the port is 0, frames name their messages, and nodes
/// write no views.
#[derive(Drop)]
pub struct Job {
    pub ring: Ring,
    pub names: Names,
    pub adversary: Adversary,
    pub hosts: Hosts,
    pub port: u16,
    pub short_frames: bool,
    pub own_views: bool,
    pub sessions: Vec<JobSession>,
}
