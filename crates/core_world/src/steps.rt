//! Steps of many desks on one list of cells.
ghost use Rattle.std.specs.Prelude.{◌≡◌, ◌+◌, ◌<◌, true, false, nat_lt, length, slice_get, Some};
ghost use Rattle.share_world.specs.Worlds.{World};
ghost use Rattle.party_desk.specs.declared.desk.Desk.{Desk};
ghost use Rattle.share_world.specs.Laws.{IsWhole};
ghost use Rattle.core_world.specs.States.{IsState, StuckOn, AllStuckOn, AllFull};
ghost use Rattle.desk_laws.specs.Pools.{moves_of, left_all, AllEnded};
ghost use Rattle.core_world.specs.Schedules.{standing, step, tells};

use desk_laws::step_in_world;
use job_plan::Plan;
use message_board::PlainCells;
use party_desk::{Desk, Stepped};

// Steps desk `k`.
fn step_at(plan: &Plan, desks: &mut [Desk], cells: &mut PlainCells, k: usize) -> Stepped
    requires within { k < length desks.old }
    requires state { (w : World) × (w.plan ≡ plan.now) × IsWhole w × IsState w desks.old cells.old }
    ensures state { (w : World) → w.plan ≡ plan.now → IsWhole w → IsState w desks.old cells.old
        → IsState w desks.new cells.new }
    ensures stands { (w : World) → w.plan ≡ plan.now → IsWhole w → IsState w desks.old cells.old
        → standing desks.new cells.new ≡ step w k (standing desks.old cells.old) }
    ensures tells { (w : World) → w.plan ≡ plan.now → IsWhole w → IsState w desks.old cells.old
        → Some result ≡ tells w k (standing desks.old cells.old) }
    ensures left { moves_of result + left_all desks.new ≡ left_all desks.old }
    ensures still { moves_of result ≡ 0 → (desks.new ≡ desks.old) × (cells.new ≡ cells.old) }
    ensures stuck { (w : World) (d : Desk) → w.plan ≡ plan.now → IsWhole w → IsState w desks.old cells.old
        → slice_get desks.old k ≡ Some d → moves_of result ≡ 0 → StuckOn w cells.old.cells k d }
{
    step_in_world(&mut desks[k], plan, cells)
}

fn is_move(stepped: Stepped) -> bool
    ensures { result ≡ nat_lt 0 (moves_of stepped) }
{
    matches!(stepped, Stepped::Moved)
}

// Steps desk `k` as far as it goes, and answers whether it moved.
fn walk(plan: &Plan, desks: &mut [Desk], cells: &mut PlainCells, k: usize) -> bool
    requires within { k < length desks.old }
    requires state { (w : World) × (w.plan ≡ plan.now) × IsWhole w × IsState w desks.old cells.old }
    ensures state { (w : World) → w.plan ≡ plan.now → IsWhole w → IsState w desks.old cells.old
        → IsState w desks.new cells.new }
    ensures moved { result ≡ true → left_all desks.new < left_all desks.old }
    ensures still { result ≡ false → (desks.new ≡ desks.old) × (cells.new ≡ cells.old) }
    ensures stuck { (w : World) (d : Desk) → w.plan ≡ plan.now → IsWhole w → IsState w desks.old cells.old
        → slice_get desks.old k ≡ Some d → result ≡ false → StuckOn w cells.old.cells k d }
{
    let mut moved = false;
    while is_move(step_at(plan, desks, cells, k)) {
        moved = true;
    }
    moved
}

// Steps the desks in turn, each as far as it goes, and answers whether any moved.
fn round(plan: &Plan, desks: &mut [Desk], cells: &mut PlainCells) -> bool
    requires state { (w : World) × (w.plan ≡ plan.now) × IsWhole w × IsState w desks.old cells.old }
    ensures state { (w : World) → w.plan ≡ plan.now → IsWhole w → IsState w desks.old cells.old
        → IsState w desks.new cells.new }
    ensures moved { result ≡ true → left_all desks.new < left_all desks.old }
    ensures still { result ≡ false → (desks.new ≡ desks.old) × (cells.new ≡ cells.old) }
    ensures stuck { (w : World) → w.plan ≡ plan.now → IsWhole w → IsState w desks.old cells.old → result ≡ false
        → AllStuckOn w desks.old cells.old.cells }
{
    let mut moved = false;
    for k in 0..desks.len() {
        if walk(plan, desks, cells, k) {
            moved = true;
        }
    }
    moved
}

// Steps all desks to their end, round after round.
fn finish_all(plan: &Plan, desks: &mut [Desk], cells: &mut PlainCells)
    requires state { (w : World) × (w.plan ≡ plan.now) × IsWhole w × IsState w desks.old cells.old }
    ensures state { (w : World) → w.plan ≡ plan.now → IsWhole w → IsState w desks.old cells.old
        → IsState w desks.new cells.new }
    ensures ended { (w : World) → w.plan ≡ plan.now → IsWhole w → IsState w desks.old cells.old → AllEnded w desks.new }
    ensures full { (w : World) → w.plan ≡ plan.now → IsWhole w → IsState w desks.old cells.old → AllFull w cells.new }
{
    let mut moved = true;
    while moved {
        moved = round(plan, desks, cells);
    }
}

/// Steps desk `k` of a list.
pub fn step_one(plan: &Plan, desks: &mut Vec<Desk>, cells: &mut PlainCells, k: usize) -> Stepped
    requires within { k < length desks.old.items }
    requires state { (w : World) × (w.plan ≡ plan.now) × IsWhole w × IsState w desks.old.items cells.old }
    ensures state { (w : World) → w.plan ≡ plan.now → IsWhole w → IsState w desks.old.items cells.old
        → IsState w desks.new.items cells.new }
    ensures stands { (w : World) → w.plan ≡ plan.now → IsWhole w → IsState w desks.old.items cells.old
        → standing desks.new.items cells.new ≡ step w k (standing desks.old.items cells.old) }
    ensures tells { (w : World) → w.plan ≡ plan.now → IsWhole w → IsState w desks.old.items cells.old
        → Some result ≡ tells w k (standing desks.old.items cells.old) }
{
    step_at(plan, desks.as_mut_slice(), cells, k)
}

/// Steps all desks of a list to their end.
pub fn finish_list(plan: &Plan, desks: &mut Vec<Desk>, cells: &mut PlainCells)
    requires state { (w : World) × (w.plan ≡ plan.now) × IsWhole w × IsState w desks.old.items cells.old }
    ensures state { (w : World) → w.plan ≡ plan.now → IsWhole w → IsState w desks.old.items cells.old
        → IsState w desks.new.items cells.new }
    ensures ended { (w : World) → w.plan ≡ plan.now → IsWhole w → IsState w desks.old.items cells.old
        → AllEnded w desks.new.items }
    ensures full { (w : World) → w.plan ≡ plan.now → IsWhole w → IsState w desks.old.items cells.old
        → AllFull w cells.new }
{
    finish_all(plan, desks.as_mut_slice(), cells);
}
