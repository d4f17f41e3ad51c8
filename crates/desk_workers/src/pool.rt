//! Workers, each of which steps any desk that it finds at home: first those of its own, so that what the desks hold
//! stays near the processor, and the others where none of these moves.
ghost use Rattle.std.specs.Prelude.{◌≡◌, ◌+◌, ◌<◌, ◌≤◌, ◌^◌, length, vec_len};
ghost use Rattle.message_board.specs.Seats.{IsFreeSeatOf, slots_of};
ghost use Rattle.desk_workers.specs.Pools.{IsPool, AllFree, SameSeatCounts};

use crate::promised::Promised;
use crate::steps::{WorkerAtDesk, walk};
use desk_rack::Rack;
use job_plan::Plan;
use message_board::BoardSeat;
use outer_io::Pace;
use party_desk::Desk;
use std::thread;
use std::thread::Threads;

/// So many rounds in a row without a move end a worker.
const MOST_IDLE: u32 = 64;

// What a worker saw: how often desks moved, and whether all that it came to were at home and at their end.
#[derive(Drop)]
struct Visit {
    moves: u64,
    over: bool,
}

// Steps the desk of a slot as long as it moves, if it is at home.
fn look_in<P: Pace>(
    rack: &Rack<Promised, Box<Desk>>,
    plan: &Plan,
    pace: &P,
    turn: WorkerAtDesk,
    seat: &mut BoardSeat<Promised, Box<Desk>>,
) -> Visit
    requires pool { IsPool plan.now rack.now }
    requires seat { IsFreeSeatOf rack.now seat.old }
    requires inside { turn.desk < slots_of rack.now.id }
    ensures seat { IsFreeSeatOf rack.now seat.new }
    ensures seats { seat.new.view.seats ≡ seat.old.view.seats }
    ensures moves { result.moves < 2 ^ 32 }
{
    let Some(desk) = rack.take(seat, turn.desk) else {
        return Visit {
            moves: 0,
            over: false,
        };
    };
    let mut desk = desk;
    let moves = walk(rack.board(), plan, pace, turn, seat, &mut desk);
    let over = desk.has_ended();
    rack.put(seat, turn.desk, desk);
    Visit { moves, over }
}

// Slots that a worker goes round: `count` of them, from `first` on.
#[derive(Clone, Copy)]
struct Slots {
    first: u32,
    count: u32,
}

// The slots that a worker goes round first, where each of `workers` has as many of its own.
fn own_slots(worker: u64, workers: usize, slots: u32) -> Slots
    requires { worker < 2 ^ 16 }
    ensures first { 0 < slots → result.first < slots }
    ensures count { result.count ≤ slots }
{
    let workers = u64::from(slots).min(workers as u64).max(1);
    let count = (u64::from(slots) + workers - 1) / workers;
    let count = count.min(u64::from(slots)) as u32;
    Slots {
        first: slot_at(worker * u64::from(count), slots),
        count,
    }
}

// Where this number comes to, round all slots.
fn slot_at(number: u64, slots: u32) -> u32
    ensures { 0 < slots → result < slots }
{
    (number % u64::from(slots.max(1))) as u32
}

// The slot after this one, round all slots.
fn slot_after(slot: u32, slots: u32) -> u32
    requires { slot < slots }
    ensures { result < slots }
{
    if slot + 1 < slots { slot + 1 } else { 0 }
}

// Visits each of these slots once, in rising order and round.
fn pass<P: Pace>(
    rack: &Rack<Promised, Box<Desk>>,
    plan: &Plan,
    pace: &P,
    worker: u32,
    visited: Slots,
    seat: &mut BoardSeat<Promised, Box<Desk>>,
) -> Visit
    requires pool { IsPool plan.now rack.now }
    requires first { 0 < visited.count → visited.first < slots_of rack.now.id }
    requires count { visited.count ≤ slots_of rack.now.id }
    requires seat { IsFreeSeatOf rack.now seat.old }
    ensures seat { IsFreeSeatOf rack.now seat.new }
    ensures seats { seat.new.view.seats ≡ seat.old.view.seats }
    ensures moves { result.moves < 2 ^ 40 }
{
    let slots = rack.slots();
    let mut desk = visited.first;
    let mut visits = 0;
    let mut moves = 0;
    let mut over = true;
    while visits < visited.count {
        let seen = look_in(rack, plan, pace, WorkerAtDesk { worker, desk }, seat);
        moves += seen.moves;
        over = over && seen.over;
        desk = slot_after(desk, slots);
        visits += 1;
    }
    Visit { moves, over }
}

// Visits the worker's own slots, and where no desk of them moved, all slots.
fn round<P: Pace>(
    rack: &Rack<Promised, Box<Desk>>,
    plan: &Plan,
    pace: &P,
    worker: u32,
    slots: Slots,
    seat: &mut BoardSeat<Promised, Box<Desk>>,
) -> Visit
    requires pool { IsPool plan.now rack.now }
    requires first { 0 < slots_of rack.now.id → slots.first < slots_of rack.now.id }
    requires count { slots.count ≤ slots_of rack.now.id }
    requires seat { IsFreeSeatOf rack.now seat.old }
    ensures seat { IsFreeSeatOf rack.now seat.new }
    ensures seats { seat.new.view.seats ≡ seat.old.view.seats }
    ensures moves { result.moves < 2 ^ 40 }
{
    let own = pass(rack, plan, pace, worker, slots, seat);
    if own.moves > 0 {
        return own;
    }
    let all = Slots {
        first: slots.first,
        count: rack.slots(),
    };
    pass(rack, plan, pace, worker, all, seat)
}

fn next_idle(idle: u32, moves: u64) -> u32
    requires { idle < MOST_IDLE }
    ensures none { moves ≡ 0 → result ≡ idle + 1 }
    ensures some { 0 < moves → result ≡ 0 }
{
    if moves == 0 { idle + 1 } else { 0 }
}

// Steps desks until all that it came to in a round were at home and at their end, or `MOST_IDLE` rounds in a row moved
// none, or the worker has made as many moves as there are instructions.
fn work<P: Pace>(
    rack: &Rack<Promised, Box<Desk>>,
    plan: &Plan,
    pace: &P,
    worker: u32,
    workers: usize,
    instructions: u64,
    seat: &mut BoardSeat<Promised, Box<Desk>>,
)
    requires pool { IsPool plan.now rack.now }
    requires worker { worker < 2 ^ 16 }
    requires few { instructions < 2 ^ 40 }
    requires seat { IsFreeSeatOf rack.now seat.old }
    ensures seat { IsFreeSeatOf rack.now seat.new }
    ensures seats { seat.new.view.seats ≡ seat.old.view.seats }
{
    let slots = own_slots(u64::from(worker), workers, rack.slots());
    let mut idle = 0;
    let mut made = 0;
    let mut over = false;
    while !over && idle < MOST_IDLE && made < instructions {
        let seen = round(rack, plan, pace, worker, slots, seat);
        made += seen.moves;
        idle = next_idle(idle, seen.moves);
        over = seen.over;
    }
}

// Each worker in a thread of its own. What no thread can be made for is done in turn.
fn fan_out<P: Pace, R: Threads + Sync>(
    rt: &R,
    plan: &Plan,
    pace: &P,
    rack: &Rack<Promised, Box<Desk>>,
    instructions: u64,
    seats: &mut [BoardSeat<Promised, Box<Desk>>],
)
    requires pool { IsPool plan.now rack.now }
    requires some { 0 < length seats.old }
    requires few { instructions < 2 ^ 40 }
    requires each { AllFree rack.now seats.old }
    ensures len { length seats.new ≡ length seats.old }
    ensures each { AllFree rack.now seats.new }
    ensures seats { SameSeatCounts seats.old seats.new }
{
    let count = seats.len();
    let job = move |i: usize, seat: &mut BoardSeat<Promised, Box<Desk>>|
        requires { IsPool plan.now rack.now × IsFreeSeatOf rack.now seat.old × (instructions < 2 ^ 40) }
        ensures { IsFreeSeatOf rack.entry.now seat.new × (seat.new.view.seats ≡ seat.old.view.seats) }
    {
        // The remainder is `i`, since there are at most 16 seats. No clause tells the closure so, and the product of a
        // worker's number and of how many slots it has is to fit in 64 bits.
        work(
            rack,
            plan,
            pace,
            (i % 0x1_0000) as u32,
            count,
            instructions,
            seat,
        )
    };
    thread::for_each_mut(rt, seats, count, &job);
}

/// As many workers as seats, each until it stops.
pub fn work_all<P: Pace, R: Threads + Sync>(
    rt: &R,
    plan: &Plan,
    pace: &P,
    rack: &Rack<Promised, Box<Desk>>,
    instructions: u64,
    seats: &mut Vec<BoardSeat<Promised, Box<Desk>>>,
)
    requires pool { IsPool plan.now rack.now }
    requires some { 0 < vec_len seats.old }
    requires few { instructions < 2 ^ 40 }
    requires each { AllFree rack.now seats.old.items }
    ensures len { length seats.new.items ≡ length seats.old.items }
    ensures each { AllFree rack.now seats.new.items }
    ensures seats { SameSeatCounts seats.old.items seats.new.items }
{
    fan_out(rt, plan, pace, rack, instructions, seats.as_mut_slice());
}
