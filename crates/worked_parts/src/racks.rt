//! A rack of one item, for which two seats ask.
ghost use Rattle.std.specs.Prelude.{◌≡◌, [], IfOk, IfSome};
ghost use Rattle.message_board.specs.Seats.{AreNewSeats, IsSeatOf, slots_of};

use desk_rack::Rack;
use message_board::{BoardSeat, Promise, SlotItem};
use std::alloc::{AllocError, Global};
use std::process::Abort;
use std::test::Fail;

// A board without cells promises no words.
#[derive(Drop)]
struct NoWords;

impl Promise for NoWords {
    ghost use Rattle.std.specs.Prelude.{[]};

    ghost list = { λ _. [] };
}

#[derive(Clone, Copy, PartialEq, Eq, Drop)]
struct Item(u64);

// Any item is good for any slot, and posts nothing.
impl SlotItem<NoWords> for Item {
    ghost use Rattle.std.specs.Prelude.{[]};

    ghost good = { λ words item slot. Unit {0} };

    ghost posted = { λ words item. [] };
}

type ItemRack = Rack<NoWords, Item>;

type ItemSeat = BoardSeat<NoWords, Item>;

// A rack with the item 7 in its one slot, and its two seats.
fn one_item(alloc: Global) -> Result<(ItemRack, Vec<ItemSeat>), Fail>
    ensures seats { IfOk result (λ r. AreNewSeats r.0 r.1.items) }
    ensures slots { IfOk result (λ r. slots_of r.0.id ≡ 1) }
{
    let items = vec![in alloc; Item(7)]?;
    match Rack::make(alloc, NoWords, 0, 2, items) {
        Ok(made) => Ok(made),
        Err(_) => Err(Fail::from("out of memory")),
    }
}

// The two seats.
fn two_seats(rack: &ItemRack, mut seats: Vec<ItemSeat>) -> Option<(ItemSeat, ItemSeat)>
    requires { AreNewSeats rack.now seats.items }
    ensures { IfSome result (λ two. IsSeatOf rack.now two.0 × IsSeatOf rack.now two.1) }
{
    let second = seats.pop()?;
    let first = seats.pop()?;
    Some((first, second))
}

// That the item has one holder at a time.
fn expect_one_holder(
    rt: &impl Abort,
    rack: &ItemRack,
    first: &mut ItemSeat,
    second: &mut ItemSeat,
) -> Result<(), Fail>
    requires first { IsSeatOf rack.now first.old }
    requires second { IsSeatOf rack.now second.old }
    requires slots { slots_of rack.now.id ≡ 1 }
{
    let item = rack.take(first, 0).ok_or("the item is not at home")?;
    expect_same!(rt; item, Item(7));
    expect_same!(rt; rack.take(second, 0), None);
    rack.put(first, 0, item);
    expect_same!(rt; rack.take(second, 0), Some(Item(7)));
    Ok(())
}

#[test]
fn an_item_has_one_holder(rt: HostRuntime) -> Result<(), Fail> {
    let (rack, seats) = one_item(rt.alloc())?;
    let (mut first, mut second) = two_seats(&rack, seats).ok_or("not two seats")?;
    expect_one_holder(&rt, &rack, &mut first, &mut second)
}
