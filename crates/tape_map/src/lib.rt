//! Privacy: the change of tapes that hides other inputs from a tolerated group, and its laws.
#![tactic(auto)]

ghost use Rattle.std.specs.Prelude.{ℕ};
ghost use Rattle.maximal_groups.specs.Families.{LiesWithin};
ghost use Rattle.plan_model.specs.Plans.{Plan, structure};
ghost use Rattle.plan_model.specs.Sound.{IsSound};
ghost use Rattle.share_world.specs.Worlds.{World};
ghost use Rattle.share_world.specs.Laws.{IsWhole};
ghost use Rattle.tape_map.specs.TapeMaps.{hidden};
ghost use Rattle.tape_map.specs.Laws.{CanHide, SameView, SameWords, SameOutputs, CanGoBack, GoesBack, OneToOne, Onto, IsFirstLacked, MembersStay, OthersStay, WordsMove, SummandsMove, ValuesMove, MasksMove, ExcessStays, InputsChange, SecondIsWhole, AgreesBack, DeltaIsPlain};
ghost use Rattle.tape_map.specs.Multiply.{CanHideFromA, HiddenFromA, SecondPlain, CanHideFromC, HiddenFromNobody, HiddenFromC, SeenByBoth};
ghost use Rattle.plan_model.specs.InputWords.{InputLists};

mod change;
mod differences;
mod fault;
mod fault_law;
mod hidden_summand;
mod inputs;
mod map;
mod outputs;

pub use fault::MapFault;
pub use fault_law::no_fault_where_it_can_be_hidden;
pub use map::map_tapes;

/// In the second world a tolerated group sees what it saw: each message that a member sends or
/// receives has the word that it had, and each output that a member reads is what it was.
pub fn same_view()
    ensures view { (w : World) (other : InputLists) (group : ℕ)
        → CanHide w other group → SameView w other group }
    ensures words { (w : World) (other : InputLists) (group : ℕ)
        → CanHide w other group → SameWords w other group }
    ensures outputs { (w : World) (other : InputLists) (group : ℕ)
        → CanHide w other group → SameOutputs w other group }
{}

/// The first inputs can be hidden in the second world in turn, and that gives the first world.
pub fn goes_back()
    ensures can { (w : World) (other : InputLists) (group : ℕ)
        → CanHide w other group → CanGoBack w other group }
    ensures back { (w : World) (other : InputLists) (group : ℕ)
        → CanHide w other group → GoesBack w other group }
{}

/// Different tapes are changed into different ones, and all tapes of the plan are what some tapes
/// are changed into.
pub fn change_is_one_to_one()
    ensures one_to_one { (w : World) (other : InputLists) (group : ℕ)
        → CanHide w other group → OneToOne w other group }
    ensures onto { (w : World) (other : InputLists) (group : ℕ)
        → CanHide w other group → Onto w other group }
{}

/// The members' tapes stay, and so does each word that isn't the hidden summand of a deal.
pub fn members_stay()
    ensures members { (w : World) (other : InputLists) (group : ℕ)
        → IsWhole w → MembersStay w other group }
    ensures others { (w : World) (other : InputLists) (group : ℕ)
        → OthersStay w other group }
{}

/// The hidden summand of a tolerated group is the first that no member holds.
pub fn hidden_is_first()
    ensures { (plan : Plan) (group : ℕ)
        → LiesWithin (structure plan) group → IsFirstLacked plan group (hidden plan group) }
{}

/// The tape words, summands and deals of the second world are the moved ones: the hidden summand of
/// each wire grows as the wire's value does, and all other summands stay. The masks of a prepared
/// product grow with its wires, so that what is opened of these stays.
pub fn hidden_summands_move()
    ensures words { (w : World) (other : InputLists) (group : ℕ)
        → WordsMove w other group }
    ensures summands { (w : World) (other : InputLists) (group : ℕ)
        → CanHide w other group → SummandsMove w other group }
    ensures values { (w : World) (other : InputLists) (group : ℕ)
        → CanHide w other group → ValuesMove w other group }
    ensures masks { (w : World) (other : InputLists) (group : ℕ)
        → CanHide w other group → MasksMove w other group }
    ensures excess { (w : World) (other : InputLists) (group : ℕ)
        → CanHide w other group → ExcessStays w other group }
{}

/// A whole world stays whole with other inputs of its plan, and so is its second world.
pub fn worlds_stay_whole()
    ensures inputs { (w : World) (other : InputLists) → IsWhole w → InputsChange w other }
    ensures second { (w : World) (other : InputLists) (group : ℕ)
        → IsWhole w → SecondIsWhole w other group }
{}

/// Inputs that agree one way agree the other way, whatever the tapes are.
pub fn agreement_is_symmetric()
    ensures { (w : World) (other : InputLists) (group : ℕ) → AgreesBack w other group }
{}

/// Before each gate, each wire that it reads grows as its plain value does.
pub fn delta_is_plain()
    ensures { (w : World) (other : InputLists) → IsSound w.plan → DeltaIsPlain w other }
{}

/// The worked job of one product: other inputs can be hidden from a and from c, by these tapes, and
/// not from both together, whatever the tapes.
pub fn multiply_job()
    ensures hidden_from_nobody { HiddenFromNobody }
    ensures can_hide_from_a { CanHideFromA }
    ensures hidden_from_a { HiddenFromA }
    ensures second_plain { SecondPlain }
    ensures can_hide_from_c { CanHideFromC }
    ensures hidden_from_c { HiddenFromC }
    ensures seen_by_both { SeenByBoth }
{}
