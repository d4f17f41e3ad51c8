//! A run of workers, from its memory to its end.
ghost use Rattle.std.specs.Prelude.{◌≡◌, ◌<◌, ◌≤◌, IfOk, length, map};
ghost use Rattle.message_board.specs.Pairs.{total_over};
ghost use Rattle.plan_model.specs.InputWords.{AreInputs};
ghost use Rattle.share_world.specs.Laws.{IsWhole};
ghost use Rattle.desk_laws.specs.Pieces.{ArePieces, world_of_pieces};
ghost use Rattle.desk_workers.specs.Runs.{IsReady};

use crate::done::Done;
use crate::finish::{finish_all, fold_all, take_all};
use crate::pool::work_all;
use crate::promised::Promised;
use desk_laws::open_desks;
use desk_rack::Rack;
use job_limits::MOST_WORKERS;
use job_plan::{Inputs, Plan};
use message_board::BoardSeat;
use outer_io::Pace;
use party_desk::Desk;
use std::alloc::{AllocError, Global};
use std::thread::Threads;
use tape_words::Tape;

/// All desks of a world at their start, with all the memory that their run needs.
#[derive(Drop)]
pub struct Ready {
    parties: u32,
    rack: Rack<Promised, Box<Desk>>,
    seats: Vec<BoardSeat<Promised, Box<Desk>>>,
    instructions: u64,
    desks: Vec<Desk>,
    last: Vec<BoardSeat<Promised, Box<Desk>>>,
}

/// Makes ready the world of these inputs and pieces of tape for this number of workers. The pieces stand in the order
/// of the desks' numbers: that of party p in session s is `s * parties + p`.
pub fn prepare(
    alloc: Global,
    plan: &Plan,
    inputs: &Inputs,
    pieces: Vec<Tape>,
    workers: u32,
) -> Result<Ready, AllocError>
    requires workers { (0 < workers) × (workers ≤ MOST_WORKERS) }
    requires inputs { AreInputs plan.now inputs.now }
    requires pieces { ArePieces plan.now pieces.items }
    ensures whole { IsWhole (world_of_pieces plan.now inputs.now pieces.items) }
    ensures ready { IfOk result (IsReady (world_of_pieces plan.now inputs.now pieces.items)) }
    ensures workers { IfOk result (λ ready. length ready.seats.items ≡ workers) }
{
    let parties = plan.parties();
    let promised = Promised::of(plan, inputs, &pieces);
    let opened = open_desks(alloc, plan, inputs, pieces)?;
    let instructions = instructions_in(opened.as_slice());
    let items = in_boxes(alloc, opened)?;
    let desks = Vec::with_capacity(alloc, items.len())?;
    let last = Vec::with_capacity(alloc, 1)?;
    match Rack::make(alloc, promised, plan.messages(), workers, items) {
        Ok(made) => {
            let (rack, seats) = made;
            Ok(Ready {
                parties,
                rack,
                seats,
                instructions,
                desks,
                last,
            })
        }
        Err(_) => Err(AllocError),
    }
}

// Each desk in a box of its own, so that a slot passes on its address and not its bytes.
fn in_boxes(alloc: Global, desks: Vec<Desk>) -> Result<Vec<Box<Desk>>, AllocError>
    ensures { IfOk result (λ boxes. map (λ desk. desk.value) boxes.items ≡ desks.items) }
{
    let mut boxes = Vec::new(alloc);
    for desk in desks {
        boxes.push(Box::new(alloc, desk)?)?;
    }
    Ok(boxes)
}

// How many instructions these desks have.
fn instructions_in(desks: &[Desk]) -> u64
    requires { length desks.now ≤ 192 }
    ensures { result ≡ total_over (λ d. d.instructions) desks.now }
{
    let mut count = 0;
    for i in 0..desks.len() {
        count += u64::from(desks[i].instructions());
    }
    count
}

// How often these desks moved.
fn steps_in(desks: &[Desk]) -> u64
    requires { length desks.now ≤ 192 }
    ensures { result ≡ total_over (λ d. d.position) desks.now }
{
    let mut count = 0;
    for i in 0..desks.len() {
        count += u64::from(desks[i].position());
    }
    count
}

impl Ready {
    ghost use Rattle.std.specs.Prelude.{◌≡◌};
    ghost use Rattle.share_world.specs.Worlds.{World};
    ghost use Rattle.desk_workers.specs.Runs.{IsReady, IsOver};

    /// Runs all desks to their end, by as many workers as were prepared for. It takes no memory and waits for no lock.
    pub fn run<P: Pace, R: Threads + Sync>(self, rt: &R, plan: &Plan, pace: &P) -> Done
        requires { (w : World) × (w.plan ≡ plan.now) × IsReady w self }
        ensures { (w : World) → w.plan ≡ plan.now → IsReady w self → IsOver w result }
    {
        let Ready {
            parties,
            rack,
            mut seats,
            instructions,
            desks,
            mut last,
        } = self;
        work_all(rt, plan, pace, &rack, instructions, &mut seats);
        let mut keeper = fold_all(rack.board(), seats);
        let mut all = take_all(&rack, &mut keeper, desks);
        finish_all(rack.board(), plan, &mut keeper, &mut all);
        let steps = steps_in(all.as_slice());
        last.push_reserved(keeper);
        let cells = rack.into_board().close(last);
        Done {
            parties,
            desks: all,
            cells,
            steps,
        }
    }
}
