// The hellos of a node.
ghost use Rattle.std.specs.Prelude.{◌≡◌, ◌+◌, ◌<◌, true, false};
ghost use Rattle.node_talk.specs.Talks.{Node};
ghost use Rattle.node_run.specs.Progress.{Begin, Greeted, AllGreeted, Ungreeted};

use crate::cells::NodeCells;
use crate::flushes::flush_all;
use frame_code::hello;
use outer_io::Outlet;

// Sends its hello to party q, if that is a peer. It answers whether the sends may go on.
fn greet_one<'p, O: Outlet>(cells: &mut NodeCells<'p, O>, q: u32, digest: &[u8; 32]) -> bool
    requires { (n : Node) × (start : Begin) × (n.digest ≡ digest.now) × (q < n.world.plan.parties)
        × Greeted n q start cells.old }
    ensures on { (n : Node) (start : Begin) → n.digest ≡ digest.now → q < n.world.plan.parties
        → Greeted n q start cells.old
        → result ≡ true → Greeted n (q + 1) start cells.new }
    ensures halted { (n : Node) (start : Begin) → n.digest ≡ digest.now → q < n.world.plan.parties
        → Greeted n q start cells.old
        → result ≡ false → Ungreeted n start cells.new }
{
    if q == cells.me {
        return true;
    }
    let hello = hello(cells.me, q, digest);
    cells.send(q, &hello);
    cells.failed.is_none()
}

/// Sends its hello to each peer in turn, up to the first failure, and then what waits. It answers whether none failed.
pub fn greet<'p, O: Outlet>(cells: &mut NodeCells<'p, O>, digest: &[u8; 32]) -> bool
    requires { (n : Node) × (start : Begin) × (n.digest ≡ digest.now) × Greeted n 0 start cells.old }
    ensures on { (n : Node) (start : Begin) → n.digest ≡ digest.now → Greeted n 0 start cells.old
        → result ≡ true → AllGreeted n start cells.new }
    ensures halted { (n : Node) (start : Begin) → n.digest ≡ digest.now → Greeted n 0 start cells.old
        → result ≡ false → Ungreeted n start cells.new }
{
    for q in 0..cells.plan.parties() {
        if !greet_one(cells, q, digest) {
            return false;
        }
    }
    flush_all(cells)
}
