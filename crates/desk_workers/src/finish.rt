//! What is left once all workers have stopped.
ghost use Rattle.std.specs.Prelude.{◌≡◌, ◌+◌, ◌<◌, ◌≤◌, [], length, vec_len, vec_capacity};
ghost use Rattle.message_board.specs.Pairs.{Knows, total_over};
ghost use Rattle.message_board.specs.Seats.{IsSeatOf, IsFreeSeatOf, AreSeatsOf, slots_of};
ghost use Rattle.desk_laws.specs.Pools.{AllEnded, AllStuck, left_all};
ghost use Rattle.desk_workers.specs.Promises.{world_in};
ghost use Rattle.desk_workers.specs.Pools.{IsPool, AllStand, seats_in};

use crate::promised::Promised;
use crate::steps::{WorkerAtDesk, walk};
use desk_rack::Rack;
use job_plan::Plan;
use message_board::{Board, BoardSeat};
use outer_io::NoPace;
use party_desk::Desk;

/// One seat that knows what all knew.
pub fn fold_all(
    board: &Board<Promised, Box<Desk>>,
    mut seats: Vec<BoardSeat<Promised, Box<Desk>>>,
) -> BoardSeat<Promised, Box<Desk>>
    requires some { 0 < vec_len seats }
    requires seats { AreSeatsOf board.now seats.items }
    ensures seat { IsFreeSeatOf board.now result }
    ensures seats { result.view.seats ≡ total_over seats_in seats.items }
{
    let Some(first) = seats.pop() else {
        unreachable!()
    };
    let mut keeper = first;
    while let Some(other) = seats.pop() {
        keeper = board.fold(keeper, other);
    }
    keeper
}

/// All desks, taken by the seat that stands for all.
pub fn take_all(
    rack: &Rack<Promised, Box<Desk>>,
    seat: &mut BoardSeat<Promised, Box<Desk>>,
    mut desks: Vec<Desk>,
) -> Vec<Desk>
    requires seat { IsFreeSeatOf rack.now seat.old }
    requires seats { seat.old.view.seats ≡ rack.now.about.seats }
    requires room { (desks.items ≡ []) × (slots_of rack.now.id ≤ vec_capacity desks) }
    ensures seat { IsSeatOf rack.now seat.new }
    ensures count { vec_len result ≡ slots_of rack.now.id }
    ensures desks { AllStand (world_in rack.now.about.world) seat.new.view.seen result.items }
{
    for slot in 0..rack.slots() {
        let Some(desk) = rack.take(seat, slot) else {
            unreachable!()
        };
        desks.push_reserved(Box::into_inner(desk));
    }
    desks
}

// Steps the desks in turn, each as far as it goes, and answers how often they moved.
fn round(
    board: &Board<Promised, Box<Desk>>,
    plan: &Plan,
    seat: &mut BoardSeat<Promised, Box<Desk>>,
    desks: &mut [Desk],
) -> u64
    requires pool { IsPool plan.now board.now }
    requires few { length desks.old ≤ 192 }
    requires seat { IsSeatOf board.now seat.old }
    requires desks { AllStand (world_in board.now.about.world) seat.old.view.seen desks.old }
    ensures seat { IsSeatOf board.now seat.new }
    ensures desks { AllStand (world_in board.now.about.world) seat.new.view.seen desks.new }
    ensures count { length desks.new ≡ length desks.old }
    ensures moves { result + left_all desks.new ≡ left_all desks.old }
    ensures still { result ≡ 0 → desks.new ≡ desks.old }
    ensures stuck { result ≡ 0 → AllStuck (Knows seat.old.view.seen) (world_in board.now.about.world) desks.old }
{
    let mut moves = 0;
    for i in 0..desks.len() {
        let turn = WorkerAtDesk {
            worker: 0,
            desk: i as u32,
        };
        moves += walk(board, plan, &NoPace, turn, seat, &mut desks[i]);
    }
    moves
}

// Steps all desks to their end, round after round.
fn finish(
    board: &Board<Promised, Box<Desk>>,
    plan: &Plan,
    seat: &mut BoardSeat<Promised, Box<Desk>>,
    desks: &mut [Desk],
)
    requires pool { IsPool plan.now board.now }
    requires count { length desks.old ≡ slots_of board.now.id }
    requires seat { IsSeatOf board.now seat.old }
    requires desks { AllStand (world_in board.now.about.world) seat.old.view.seen desks.old }
    ensures seat { IsSeatOf board.now seat.new }
    ensures desks { AllStand (world_in board.now.about.world) seat.new.view.seen desks.new }
    ensures count { length desks.new ≡ length desks.old }
    ensures ended { AllEnded (world_in board.now.about.world) desks.new }
{
    let mut moves = 1;
    while moves > 0 {
        moves = round(board, plan, seat, desks);
    }
}

/// Steps all desks of a list to their end.
pub fn finish_all(
    board: &Board<Promised, Box<Desk>>,
    plan: &Plan,
    seat: &mut BoardSeat<Promised, Box<Desk>>,
    desks: &mut Vec<Desk>,
)
    requires pool { IsPool plan.now board.now }
    requires count { vec_len desks.old ≡ slots_of board.now.id }
    requires seat { IsSeatOf board.now seat.old }
    requires desks { AllStand (world_in board.now.about.world) seat.old.view.seen desks.old.items }
    ensures seat { IsSeatOf board.now seat.new }
    ensures desks { AllStand (world_in board.now.about.world) seat.new.view.seen desks.new.items }
    ensures count { length desks.new.items ≡ length desks.old.items }
    ensures ended { AllEnded (world_in board.now.about.world) desks.new.items }
{
    finish(board, plan, seat, desks.as_mut_slice());
}
