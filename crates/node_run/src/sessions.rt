// The sessions of a node.
ghost use Rattle.std.specs.Prelude.{◌≡◌, ℕ, ◌<◌, length, true, false, None};
ghost use Rattle.program_model.specs.Programs.{program};
ghost use Rattle.node_talk.specs.Talks.{Node};
ghost use Rattle.node_run.specs.Mail.{ComesFromPeer, NothingWaits};
ghost use Rattle.node_run.specs.Progress.{Begin, InSession, InOrder, Halted, KeepsWords};
ghost use Rattle.node_run.specs.Turns.{Turns, Awaits};

use crate::cells::NodeCells;
use crate::flushes::flush_all;
use crate::parking::Parking;
use job_plan::Plan;
use outer_io::Outlet;
use party_desk::{Desk, Stepped};
use std::sync::Wait;

// What one turn of a desk came to.
#[derive(Clone, Copy, Debug, PartialEq, Eq)]
enum Turn {
    // It moved.
    Moved,
    // It waits for the word of this message, which is a peer's.
    Waits(u32),
    // It is at its end.
    Ended,
    // A send failed.
    Failed,
}

// Does one instruction.
fn advance<'p, O: Outlet>(plan: &Plan, desk: &mut Desk, cells: &mut NodeCells<'p, O>) -> Turn
    requires { (n : Node) × (s : ℕ) × (start : Begin) × (n.world.plan ≡ plan.now)
        × InSession n s start desk.old cells.old }
    ensures turns { (n : Node) (s : ℕ) (start : Begin) → n.world.plan ≡ plan.now
        → InSession n s start desk.old cells.old
        → Turns n s start desk.new cells.new result }
    ensures keeps { KeepsWords cells.old cells.new }
{
    match desk.step(plan, cells) {
        Stepped::Moved => {
            if cells.failed.is_some() {
                return Turn::Failed;
            }
            return Turn::Moved;
        }
        Stepped::NotYet(number) => return Turn::Waits(number),
        Stepped::Ended => return Turn::Ended,
    }
}

// Waits for the word of this message of a peer, once all that was said went out. It answers whether the session goes
// on: not where that failed, nor where the reader of the word's sender ended by a fault, and a look after that didn't
// find it.
fn wait_for<'p, O: Outlet, R: Wait>(
    rt: &R,
    cells: &mut NodeCells<'p, O>,
    parking: &Parking,
    number: u32,
) -> bool
    requires { ComesFromPeer cells.old number }
    ensures on { (n : Node) (s : ℕ) (start : Begin) (desk : Desk) → InSession n s start desk cells.old
        → result ≡ true → InSession n s start desk cells.new }
    ensures halted { (n : Node) (s : ℕ) (start : Begin) (desk : Desk) → InSession n s start desk cells.old
        → Awaits n s desk number → result ≡ false → Halted n start cells.new }
    ensures keeps { KeepsWords cells.old cells.new }
{
    match cells.mark(number) {
        None => {
            let gone = flush_all(cells);
            if gone {
                parking.park(rt, cells);
            }
            gone
        }
        Some(false) => true,
        Some(true) => cells.look(number).is_some(),
    }
}

// Steps the desk to its end, and answers whether it came there. Where it waits, it parks until a reader wakes it.
fn walk<'p, O: Outlet, R: Wait>(
    rt: &R,
    plan: &Plan,
    desk: &mut Desk,
    cells: &mut NodeCells<'p, O>,
    parking: &Parking,
) -> bool
    requires { (n : Node) × (s : ℕ) × (start : Begin) × (n.world.plan ≡ plan.now)
        × InSession n s start desk.old cells.old }
    ensures ended { (n : Node) (s : ℕ) (start : Begin) → n.world.plan ≡ plan.now
        → InSession n s start desk.old cells.old
        → result ≡ true → InSession n s start desk.new cells.new
        × (desk.new.position ≡ length (program n.world.plan n.me s)) }
    ensures halted { (n : Node) (s : ℕ) (start : Begin) → n.world.plan ≡ plan.now
        → InSession n s start desk.old cells.old
        → result ≡ false → Halted n start cells.new }
    ensures keeps { KeepsWords cells.old cells.new }
{
    for _ in rt.forever() {
        match advance(plan, desk, cells) {
            Turn::Moved => (),
            Turn::Waits(number) => {
                if !wait_for(rt, cells, parking, number) {
                    return false;
                }
            }
            Turn::Ended => return true,
            Turn::Failed => return false,
        }
    }
    unreachable!()
}

// Steps all desks to their end in turn, and answers whether they came there.
fn walk_all<'p, O: Outlet, R: Wait>(
    rt: &R,
    plan: &Plan,
    desks: &mut [Desk],
    cells: &mut NodeCells<'p, O>,
    parking: &Parking,
) -> bool
    requires { (n : Node) × (start : Begin) × (n.world.plan ≡ plan.now) × InOrder n 0 start desks.old cells.old }
    ensures ended { (n : Node) (start : Begin) → n.world.plan ≡ plan.now → InOrder n 0 start desks.old cells.old
        → result ≡ true → InOrder n (length desks.old) start desks.new cells.new }
    ensures halted { (n : Node) (start : Begin) → n.world.plan ≡ plan.now → InOrder n 0 start desks.old cells.old
        → result ≡ false → Halted n start cells.new }
{
    for s in 0..desks.len() {
        if !walk(rt, plan, &mut desks[s], cells, parking) {
            return false;
        }
    }
    true
}

/// Steps all desks to their end in turn, and answers whether they came there. What was said goes out then, unless a
/// send failed.
pub fn run_sessions<'p, O: Outlet, R: Wait>(
    rt: &R,
    plan: &Plan,
    desks: &mut [Desk],
    cells: &mut NodeCells<'p, O>,
    parking: &Parking,
) -> bool
    requires { (n : Node) × (start : Begin) × (n.world.plan ≡ plan.now) × InOrder n 0 start desks.old cells.old }
    ensures ended { (n : Node) (start : Begin) → n.world.plan ≡ plan.now → InOrder n 0 start desks.old cells.old
        → result ≡ true → InOrder n (length desks.old) start desks.new cells.new }
    ensures halted { (n : Node) (start : Begin) → n.world.plan ≡ plan.now → InOrder n 0 start desks.old cells.old
        → result ≡ false → Halted n start cells.new }
    ensures out { cells.new.failed ≡ None → NothingWaits cells.new }
{
    let ended = walk_all(rt, plan, desks, cells, parking);
    if cells.failed.is_some() {
        return false;
    }
    if !flush_all(cells) {
        return false;
    }
    ended
}
