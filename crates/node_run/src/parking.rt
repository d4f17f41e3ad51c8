//! Where a party waits for its readers: only once all that it said went out, since its peers wait for that.
use crate::cells::NodeCells;
use link_reader::PartyParker;
use outer_io::Outlet;
use std::sync::Wait;

/// The parker of a party, to which nothing else here has a way.
#[derive(Drop)]
pub struct Parking {
    parker: PartyParker,
}

impl Parking {
    ghost use Rattle.node_run.specs.Mail.{NothingWaits};

    /// A place to park on this parker.
    pub fn new(parker: PartyParker) -> Parking {
        Parking { parker }
    }

    /// Parks until a reader wakes the party. Nothing that it said may wait at its outlets.
    pub fn park<'p, O: Outlet, R: Wait>(&self, rt: &R, cells: &NodeCells<'p, O>)
        requires { NothingWaits cells.now }
    {
        self.parker.park(rt);
    }
}
