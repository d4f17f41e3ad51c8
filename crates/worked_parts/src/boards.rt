//! A board with five cells, of which the fourth has 7 promised.
ghost use Rattle.std.specs.Prelude.{◌≡◌, [], ◌∷◌, IfOk, IfSome};
ghost use Rattle.message_board.specs.Seats.{AreNewSeats, IsSeatOf};

use message_board::{Board, BoardSeat, Posted, Promise, SlotItem};
use std::alloc::{AllocError, Global};
use std::snapshot::Snapshot;
use std::test::Fail;

// The words that are promised, for contracts alone.
#[derive(Drop)]
struct Words(Snapshot<Vec<u64>>);

impl Promise for Words {
    ghost list = { λ p. p.0.value.items };
}

#[derive(Clone, Copy, PartialEq, Eq, Drop)]
struct Token(u64);

impl SlotItem<Words> for Token {
    ghost use Rattle.std.specs.Prelude.{[]};

    ghost good = { λ words token slot. Unit {0} };

    ghost posted = { λ words token. [] };
}

type TokenBoard = Board<Words, Token>;

type TokenSeat = BoardSeat<Words, Token>;

fn five_cells(alloc: Global) -> Result<(TokenBoard, Vec<TokenSeat>), AllocError>
    ensures promised { IfOk result (λ r. r.0.about.world.0.value.items ≡ 0 ∷ 0 ∷ 0 ∷ 7 ∷ 0 ∷ []) }
    ensures seats { IfOk result (λ r. AreNewSeats r.0 r.1.items) }
{
    let words = vec![in alloc; 0u64, 0, 0, 7, 0]?;
    Board::make(alloc, Words(Snapshot::of(&words)), 5, 1)
}

fn a_seat(board: &TokenBoard, mut seats: Vec<TokenSeat>) -> Option<TokenSeat>
    requires { AreNewSeats board.now seats.items }
    ensures { IfSome result (IsSeatOf board.now) }
{
    let seat = seats.pop()?;
    Some(seat)
}

#[test]
fn a_cell_of_a_board_is_filled_once(rt: HostRuntime) -> Result<(), Fail> {
    let (board, seats) = five_cells(rt.alloc())?;
    let mut seat = a_seat(&board, seats).ok_or("no seat")?;
    expect_same!(rt; board.post(&mut seat, 3, 7), Posted::Done);
    expect_same!(rt; board.post(&mut seat, 3, 7), Posted::Occupied(7));
    expect_same!(rt; board.take(&mut seat, 3), Some(7));
    expect_same!(rt; board.take(&mut seat, 4), None);
    let mut last = Vec::new(rt.alloc());
    last.push(seat)?;
    let closed = board.close(last);
    expect_same!(rt; closed.cell(3), Some(7));
    expect_same!(rt; closed.cell(4), None);
    Ok(())
}
