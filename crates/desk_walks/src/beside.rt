//! Instructions of a desk in slots that are of no gate, one after another, on a board that threads share.
ghost use Rattle.std.specs.Prelude.{◌≡◌, ◌≢◌, ◌<◌, true, false};
ghost use Rattle.message_board.specs.Seats.{IsSeatOf};
ghost use Rattle.party_desk.specs.declared.desk.Stepped.TheVariants.{Moved};
ghost use Rattle.desk_walks.specs.Walks.{CanWalk, ForWalking, IsBeside, Walks, WentOn};

use job_plan::{Pattern, Plan};
use message_board::{Board, BoardSeat, Promise, SeatAt, SlotItem};
use party_desk::{Desk, Stepped};

/// In a slot that is of no gate, the instructions that come next, until one is of a gate or waits. It answers
/// whether there were any. It is out of line, since direct sessions have few such slots.
#[inline(never)]
pub fn walk_beside<W: Promise, T: SlotItem<W>>(
    desk: &mut Desk,
    plan: &Plan,
    board: &Board<W, T>,
    seat: &mut BoardSeat<W, T>,
) -> bool
    requires may { CanWalk plan.now (W.list board.now.about.world) desk.old }
    requires seat { IsSeatOf board.now seat.old }
    requires beside { IsBeside desk.old.place.pattern }
    ensures seat { IsSeatOf board.now seat.new }
    ensures went { ForWalking plan.now (W.list board.now.about.world) desk.old
        (λ given. WentOn given seat.old desk.old seat.new desk.new result) }
    ensures still { desk.new.position ≡ desk.old.position → desk.new ≡ desk.old }
{
    let before = desk.position;
    let mut goes = true;
    while goes {
        goes = goes_beside(desk, plan, board, seat);
    }
    if desk.position == before {
        return false;
    }
    true
}

// Steps the desk once, and answers whether it moved and stands in such a slot still.
#[inline(always)]
fn goes_beside<W: Promise, T: SlotItem<W>>(
    desk: &mut Desk,
    plan: &Plan,
    board: &Board<W, T>,
    seat: &mut BoardSeat<W, T>,
) -> bool
    requires may { CanWalk plan.now (W.list board.now.about.world) desk.old }
    requires seat { IsSeatOf board.now seat.old }
    ensures seat { IsSeatOf board.now seat.new }
    ensures walks { ForWalking plan.now (W.list board.now.about.world) desk.old
        (λ given. Walks given seat.old desk.old seat.new desk.new) }
    ensures on { result ≡ true → desk.old.position < desk.new.position }
    ensures still { desk.new.position ≡ desk.old.position → desk.new ≡ desk.old }
{
    if !step_on(desk, plan, board, seat) {
        return false;
    }
    is_beside(desk)
}

/// Whether the desk stands in a slot that is of no gate.
#[inline(always)]
pub fn is_beside(desk: &Desk) -> bool
    ensures { result ≡ true → IsBeside desk.now.place.pattern }
{
    !matches!(desk.place.pattern(), Pattern::Multiplied | Pattern::Silent)
}

// Steps the desk once, and answers whether it moved.
#[inline(always)]
fn step_on<W: Promise, T: SlotItem<W>>(
    desk: &mut Desk,
    plan: &Plan,
    board: &Board<W, T>,
    seat: &mut BoardSeat<W, T>,
) -> bool
    requires may { CanWalk plan.now (W.list board.now.about.world) desk.old }
    requires seat { IsSeatOf board.now seat.old }
    ensures seat { IsSeatOf board.now seat.new }
    ensures walks { ForWalking plan.now (W.list board.now.about.world) desk.old
        (λ given. Walks given seat.old desk.old seat.new desk.new) }
    ensures on { result ≡ true → desk.old.position < desk.new.position }
    ensures still { result ≡ false → desk.new ≡ desk.old }
{
    let mut cells = SeatAt { board, seat };
    step_at(desk, plan, &mut cells)
}

// The same, over a seat as cells.
#[inline(always)]
fn step_at<W: Promise, T: SlotItem<W>>(
    desk: &mut Desk,
    plan: &Plan,
    cells: &mut SeatAt<W, T>,
) -> bool
    requires may { CanWalk plan.now (W.list cells.old.board.now.about.world) desk.old }
    requires seat { IsSeatOf cells.old.board.now cells.old.seat.now }
    ensures same { (cells.new.board ≡ cells.old.board) × (cells.new.seat.ghost_name ≡ cells.old.seat.ghost_name) }
    ensures seat { IsSeatOf cells.old.board.now cells.new.seat.now }
    ensures walks { ForWalking plan.now (W.list cells.old.board.now.about.world) desk.old
        (λ given. Walks given cells.old.seat.now desk.old cells.new.seat.now desk.new) }
    ensures on { result ≡ true → desk.old.position < desk.new.position }
    ensures still { result ≡ false → desk.new ≡ desk.old }
{
    let stepped = desk.step(plan, cells);
    is_move(stepped)
}

fn is_move(stepped: Stepped) -> bool
    ensures moved { result ≡ true → stepped ≡ Moved }
    ensures still { result ≡ false → stepped ≢ Moved }
{
    matches!(stepped, Stepped::Moved)
}
