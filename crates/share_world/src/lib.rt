//! Worlds (a plan, inputs and tapes), the sharing equations over them, and the laws that hold of every world.
#![tactic(auto)]

ghost use Rattle.std.specs.Prelude.{ℕ};
ghost use Rattle.plan_model.specs.Plans.{IsPlan, CarriesEarlier};
ghost use Rattle.share_world.specs.Worlds.{World};
ghost use Rattle.share_world.specs.Laws.{IsWorld, SumIsPlain, HeldAreDealt, SentAreWords, OpenedArePlain};
ghost use Rattle.share_world.specs.Locals.{LocalsJoin, ReadsBefore};
ghost use Rattle.share_world.specs.Solutions.{IsSolution, OnlySolution, CarriedArePlain};
ghost use Rattle.share_world.specs.Made.{MadeIsCircuit, MadeHasValues};
ghost use Rattle.share_world.specs.Multiply.{MultiplyPlain, MultiplyWhole, MultiplyWords};
ghost use Rattle.share_world.specs.CarriedProduct.{CarriedPlain, CarriedWhole, CarriedWords};

/// The summands of every wire add up to its plain value.
pub fn sum_is_plain()
    ensures { (w : World) → IsWorld w → SumIsPlain w }
{}

/// Over valid circuits, which may carry wires from one session to a later one, the summands of the wires and of the
/// deals solve the sharing equations (Maurer 2006) of all sessions at once, and no others do. A carried wire has the
/// value of the wire that it carries.
pub fn equations_have_one_solution()
    ensures solves { (w : World) → IsSolution w }
    ensures alone { (w : World) → OnlySolution w }
    ensures carried { (w : World) → CarriedArePlain w }
{}

/// What a party computes by itself from the words of the equations is what the equations say: the summands that it
/// holds, the words that it sends, and the outputs that it opens.
pub fn local_is_dealt()
    ensures held { (w : World) → IsPlan w.plan → HeldAreDealt w }
    ensures sent { (w : World) → IsPlan w.plan → SentAreWords w }
    ensures opened { (w : World) → IsWorld w → OpenedArePlain w }
{}

/// Parties that got what the senders send have the words of the equations.
pub fn locals_join()
    ensures { (w : World) → IsPlan w.plan → LocalsJoin w }
{}

/// A local run of the first gates reads only what was got in earlier sessions and in the slots before.
pub fn reads_before()
    ensures { (w : World) → CarriesEarlier w.plan → ReadsBefore w }
{}

/// The session of a valid circuit is valid, and its plain values are the values of the circuit's wires, where a carried
/// input wire has the plain value of the wire that it carries.
pub fn made_sessions_are_circuits()
    ensures valid { MadeIsCircuit }
    ensures values { (w : World) (s : ℕ) → CarriesEarlier w.plan → MadeHasValues w s }
{}

/// The worked job of one product is whole, and has these words and this output, by computation.
pub fn multiply_job()
    ensures whole { MultiplyWhole }
    ensures plain { MultiplyPlain }
    ensures words { MultiplyWords }
{}

/// The worked job of two products, the first of which is carried, is whole, and has these words and this output, by
/// computation.
pub fn carried_job()
    ensures whole { CarriedWhole }
    ensures plain { CarriedPlain }
    ensures words { CarriedWords }
{}
