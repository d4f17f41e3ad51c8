//! How readers wake their party.
ghost use Rattle.std.specs.Prelude.{◌≡◌, IfOk};
ghost use Rattle.link_reader.specs.Wakers.{gives};

use crossbeam_utils::rule::{Outcome, Protocol};
use crossbeam_utils::sync::parker::{Pass, RuledParker, RuledUnparker};
use std::alloc::{AllocError, Global};
use std::marker::Model;
use std::sync::Wait;

/// The rule of a party's parker: what a pass knows is how many tokens it gave.
pub struct CountsTokens;

impl Protocol<bool, u64> for CountsTokens {
    ghost holds = { λ token views. Unit {0} };

    ghost first = { 0 };
}

// A token that is given.
struct GivesToken;

impl Outcome<bool, u64> for GivesToken {
    ghost use Rattle.std.specs.Prelude.{◌≡◌, ◌+◌};

    ghost then = { λ given was is given'. given' ≡ given + 1 };
}

// A token that is taken.
struct TakesToken;

impl Outcome<bool, u64> for TakesToken {
    ghost use Rattle.std.specs.Prelude.{◌≡◌};

    ghost then = { λ given was is given'. given' ≡ given };
}

/// What a party parks on until a reader wakes it.
#[derive(Drop)]
pub struct PartyParker {
    parker: RuledParker<u64, CountsTokens, Global>,
}

// To a contract it is which parker it is.
impl Model for PartyParker {
    ghost use Rattle.std.specs.Arc.{arc_value};
    ghost use Rattle.atomic_table.specs.Seated.{TableId};

    ghost Value = { TableId };

    ghost view = { λ p. (arc_value p.parker.unparker.state).shared.table_id };
}

/// What a reader wakes its party with.
#[derive(Drop)]
pub struct Waker {
    unparker: RuledUnparker<u64, CountsTokens, Global>,
    pass: Pass<u64>,
}

// To a contract it is which parker it wakes, and how many tokens it gave it.
impl Model for Waker {
    ghost use Rattle.std.specs.Prelude.{◌≡◌};
    ghost use Rattle.std.specs.Arc.{arc_value};
    ghost use Rattle.crossbeam_utils.specs.Token.{parker_view};
    ghost use Rattle.link_reader.specs.Wakers.{WakerModel};

    ghost Value = { WakerModel };

    ghost view = { λ w. record { id = w.pass.table_id; given = parker_view w.pass } };

    ghost invariant = { λ w. w.pass.table_id ≡ (arc_value w.unparker.state).shared.table_id };
}

impl PartyParker {
    ghost use Rattle.std.specs.Prelude.{◌≡◌, IfOk};

    /// A parker to which no token was given yet.
    pub fn new(alloc: Global) -> Result<PartyParker, AllocError> {
        let (parker, _): (RuledParker<u64, CountsTokens>, Pass<u64>) = RuledParker::ruled(alloc)?;
        Ok(PartyParker { parker })
    }

    /// Parks until a token is there, and takes it.
    pub fn park<R: Wait>(&self, rt: &R) {
        let mut pass = self.parker.unparker().pass();
        self.parker.park_as::<TakesToken, R>(rt, &mut pass);
    }

    /// A waker of its own for a reader, which gave no token yet.
    pub fn waker(&self) -> Result<Waker, AllocError>
        ensures { IfOk result (λ waker. waker ≡ record { id = self.now; given = 0 }) }
    {
        let unparker = self.parker.unparker().clone()?;
        let pass = unparker.pass();
        Ok(Waker { unparker, pass })
    }
}

impl Waker {
    ghost use Rattle.std.specs.Prelude.{◌≡◌};
    ghost use Rattle.link_reader.specs.Wakers.{gives};

    /// Gives the party a token, and so wakes it where it parks.
    pub fn wake(&mut self)
        ensures { self.new ≡ gives self.old 1 }
    {
        self.unparker.unpark_as::<GivesToken>(&mut self.pass);
    }
}
