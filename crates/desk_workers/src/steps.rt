//! Steps of a desk on a board that other threads share.
ghost use Rattle.std.specs.Prelude.{◌≡◌, ◌<◌, ◌^◌, false, if◌then◌else◌};
ghost use Rattle.message_board.specs.Seats.{IsSeatOf};
ghost use Rattle.desk_laws.specs.Pools.{moves_of};
ghost use Rattle.desk_workers.specs.Pools.{IsPool, IsDeskOf, LeadsOn, IsStuck};

use crate::promised::Promised;
use desk_laws::step_in_world;
use desk_walks::walk_gates;
use job_plan::Plan;
use message_board::{Board, BoardSeat, SeatAt};
use outer_io::Pace;
use party_desk::{Desk, Stepped};

/// A worker that is about to step a desk: its number, and the desk's.
#[derive(Clone, Copy)]
pub struct WorkerAtDesk {
    pub worker: u32,
    pub desk: u32,
}

// Steps the desk once.
#[inline(always)]
fn step_at(cells: &mut SeatAt<Promised, Box<Desk>>, plan: &Plan, desk: &mut Desk) -> Stepped
    requires pool { IsPool plan.now cells.old.board.now }
    requires seat { IsSeatOf cells.old.board.now cells.old.seat.now }
    requires desk { IsDeskOf cells.old.board.now cells.old.seat.now desk.old }
    ensures same { (cells.new.board ≡ cells.old.board) × (cells.new.seat.ghost_name ≡ cells.old.seat.ghost_name) }
    ensures seat { IsSeatOf cells.old.board.now cells.new.seat.now }
    ensures leads { LeadsOn cells.old.board.now cells.old.seat.now desk.old cells.new.seat.now desk.new
        (moves_of result) }
    ensures stuck { moves_of result ≡ 0 → IsStuck cells.old.board.now cells.old.seat.now desk.old }
{
    step_in_world(desk, plan, cells)
}

#[inline(always)]
fn step_on(
    board: &Board<Promised, Box<Desk>>,
    plan: &Plan,
    seat: &mut BoardSeat<Promised, Box<Desk>>,
    desk: &mut Desk,
) -> Stepped
    requires pool { IsPool plan.now board.now }
    requires seat { IsSeatOf board.now seat.old }
    requires desk { IsDeskOf board.now seat.old desk.old }
    ensures seat { IsSeatOf board.now seat.new }
    ensures leads { LeadsOn board.now seat.old desk.old seat.new desk.new (moves_of result) }
    ensures stuck { moves_of result ≡ 0 → IsStuck board.now seat.old desk.old }
{
    let mut cells = SeatAt { board, seat };
    step_at(&mut cells, plan, desk)
}

// Steps the desk once, if it is not at its end, and answers whether it moved. It is out of line: a desk comes to it
// only where it waits, and its code would crowd that of gates.
#[inline(never)]
fn goes_on(
    board: &Board<Promised, Box<Desk>>,
    plan: &Plan,
    seat: &mut BoardSeat<Promised, Box<Desk>>,
    desk: &mut Desk,
) -> bool
    requires pool { IsPool plan.now board.now }
    requires seat { IsSeatOf board.now seat.old }
    requires desk { IsDeskOf board.now seat.old desk.old }
    ensures seat { IsSeatOf board.now seat.new }
    ensures leads { LeadsOn board.now seat.old desk.old seat.new desk.new (if result then 1 else 0) }
    ensures stuck { result ≡ false → IsStuck board.now seat.old desk.old }
{
    if desk.has_ended() {
        return false;
    }
    is_move(step_on(board, plan, seat, desk))
}

fn is_move(stepped: Stepped) -> bool
    ensures { (if result then 1 else 0) ≡ moves_of stepped }
{
    matches!(stepped, Stepped::Moved)
}

// Lets the desk go on until it waits or, where it makes no move so, steps it once, and answers how often it moved.
#[inline(always)]
fn goes_far<P: Pace>(
    board: &Board<Promised, Box<Desk>>,
    plan: &Plan,
    pace: &P,
    turn: WorkerAtDesk,
    seat: &mut BoardSeat<Promised, Box<Desk>>,
    desk: &mut Desk,
) -> u64
    requires pool { IsPool plan.now board.now }
    requires seat { IsSeatOf board.now seat.old }
    requires desk { IsDeskOf board.now seat.old desk.old }
    ensures seat { IsSeatOf board.now seat.new }
    ensures leads { LeadsOn board.now seat.old desk.old seat.new desk.new result }
    ensures stuck { result ≡ 0 → IsStuck board.now seat.old desk.old }
{
    pace.before(turn.worker, turn.desk);
    let walked = walk_gates(desk, plan, board, seat);
    if walked > 0 {
        return u64::from(walked);
    }
    u64::from(goes_on(board, plan, seat, desk))
}

/// Lets the desk go on until it waits or is at its end, and answers how often it moved.
pub fn walk<P: Pace>(
    board: &Board<Promised, Box<Desk>>,
    plan: &Plan,
    pace: &P,
    turn: WorkerAtDesk,
    seat: &mut BoardSeat<Promised, Box<Desk>>,
    desk: &mut Desk,
) -> u64
    requires pool { IsPool plan.now board.now }
    requires seat { IsSeatOf board.now seat.old }
    requires desk { IsDeskOf board.now seat.old desk.old }
    ensures seat { IsSeatOf board.now seat.new }
    ensures leads { LeadsOn board.now seat.old desk.old seat.new desk.new result }
    ensures stuck { result ≡ 0 → IsStuck board.now seat.old desk.old }
    ensures few { result < 2 ^ 32 }
{
    let mut moves = 0;
    let mut last = 1;
    while last == 1 {
        last = goes_far(board, plan, pace, turn, seat, desk);
        moves += last;
    }
    moves
}
