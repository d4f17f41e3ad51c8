//! What the words of a board are promised by.
ghost use Rattle.std.specs.Prelude.{◌≡◌};
ghost use Rattle.desk_laws.specs.Pieces.{world_of_pieces};
ghost use Rattle.desk_workers.specs.Promises.{world_in};

use job_plan::{Inputs, Plan};
use message_board::{Promise, SlotItem};
use party_desk::Desk;
use std::snapshot::Snapshot;
use tape_words::Tape;

/// The world that desks run in, for contracts alone: a plan, the inputs and the pieces of tape. It has no bytes.
#[derive(Drop)]
pub struct Promised {
    plan: Snapshot<Plan>,
    inputs: Snapshot<Inputs>,
    pieces: Snapshot<Vec<Tape>>,
}

impl Promised {
    /// The world of these inputs and pieces of tape.
    pub fn of(plan: &Plan, inputs: &Inputs, pieces: &Vec<Tape>) -> Promised
        ensures { world_in result ≡ world_of_pieces plan.now inputs.now pieces.now.items }
    {
        Promised {
            plan: Snapshot::of(plan),
            inputs: Snapshot::of(inputs),
            pieces: Snapshot::of(pieces),
        }
    }
}

// The words are those of the world's messages.
impl Promise for Promised {
    ghost use Rattle.desk_workers.specs.Promises.{world_in, words_of};

    ghost list = { λ promised. words_of (world_in promised) };
}

// A desk in a box is good for the slot of its number, where its program leaves it in the world.
impl SlotItem<Promised> for Box<Desk> {
    ghost use Rattle.program_laws.specs.Lawful.{given_to};
    ghost use Rattle.party_desk.specs.Desks.{IsDesk};
    ghost use Rattle.desk_workers.specs.Promises.{world_in, posted_by};

    ghost good = { λ promised desk number. IsDesk (given_to (world_in promised) number) desk.value };

    ghost posted = { λ promised desk. posted_by (world_in promised) desk.value };
}
