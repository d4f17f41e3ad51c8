//! Plain cells.
ghost use Rattle.std.specs.Prelude.{ℕ};

use message_board::{Cells, PlainCells, Posted};
use mpc_ring::Ring;
use std::process::Abort;
use std::test::Fail;

fn post_and_take<C: Cells>(rt: &impl Abort, cells: &mut C)
    requires post { C.may_post cells.old 3 7 }
    requires take { (C.may_take cells.old 3) × (C.may_take cells.old 4) }
    ensures { (n : ℕ) → C.may_take cells.old n → C.may_take cells.new n }
{
    expect_same!(rt; cells.post(3, 7), Posted::Done);
    expect_same!(rt; cells.post(3, 7), Posted::Occupied(7));
    expect_same!(rt; cells.take(3), Some(7));
    expect_same!(rt; cells.take(4), None);
    expect_same!(rt; cells.take(3), Some(7));
}

#[test]
fn a_cell_is_filled_once(rt: HostRuntime) -> Result<(), Fail> {
    let ring = Ring::new(8).ok_or("no ring")?;
    let mut cells = PlainCells::make(rt.alloc(), 5, ring)?;
    expect_same!(rt; cells.bits(), 8);
    post_and_take(&rt, &mut cells);
    expect_same!(rt; cells.cell(3), Some(7));
    expect_same!(rt; cells.cell(4), None);
    Ok(())
}
