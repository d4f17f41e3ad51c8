// What waits at the outlets of a node goes out.
ghost use Rattle.std.specs.Prelude.{◌≡◌, ◌+◌, ◌<◌, true, false};
ghost use Rattle.node_run.specs.Mail.{Mail, IsMail, NothingWaits};
ghost use Rattle.node_run.specs.Progress.{FlushedBelow, FlushFailed};

use crate::cells::NodeCells;
use outer_io::Outlet;

// Sends what waits for party q, if that is a peer. It answers whether the sends may go on.
fn flush_one<'p, O: Outlet>(cells: &mut NodeCells<'p, O>, q: u32) -> bool
    requires { q < cells.old.plan.parties }
    ensures on { (before : Mail) → FlushedBelow q before cells.old → result ≡ true
        → FlushedBelow (q + 1) before cells.new }
    ensures failed { (before : Mail) → FlushedBelow q before cells.old → result ≡ false
        → FlushFailed before cells.new }
    ensures mail { IsMail cells.new }
{
    if q == cells.me {
        return true;
    }
    cells.flush(q);
    cells.failed.is_none()
}

/// Sends what waits for each peer in turn, up to the first failure, and answers whether none failed.
pub fn flush_all<'p, O: Outlet>(cells: &mut NodeCells<'p, O>) -> bool
    ensures on { result ≡ true → FlushedBelow cells.old.plan.parties cells.old cells.new }
    ensures out { result ≡ true → NothingWaits cells.new }
    ensures failed { result ≡ false → FlushFailed cells.old cells.new }
{
    for q in 0..cells.plan.parties() {
        if !flush_one(cells, q) {
            return false;
        }
    }
    true
}
