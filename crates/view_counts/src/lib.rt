//! Perfect privacy by counting: what a tolerated group sees has the distribution of what a
//! simulator makes of what the group knows. No code that runs.
#![tactic(auto)]

ghost use Rattle.std.specs.Prelude.{ℕ, List};
ghost use Rattle.maximal_groups.specs.Families.{LiesWithin};
ghost use Rattle.plan_model.specs.Plans.{Plan, structure};
ghost use Rattle.share_world.specs.Worlds.{World};
ghost use Rattle.share_world.specs.Laws.{IsWhole};
ghost use Rattle.tape_map.specs.Laws.{CanHide};
ghost use Rattle.view_counts.specs.Laws.{IsPrivate, ViewsAreEven, TestIsEqual, IsSimulated, CanCompare, KnownDecides, ChoicesAreTapes, TapesAreChoices, ChoicesDiffer, ChoicesAreMany, KnowsNoMore, KnowsNoLess};
ghost use Rattle.view_counts.specs.Multiply.{ChoicesForA, WaysForA, WaysForC, WaysForBoth, KnownToA, KnownToC};
ghost use Rattle.plan_model.specs.InputWords.{InputLists};

/// What a tolerated group sees passes each test for as many choices of the others' tapes as what
/// the simulator makes of the plan, the members' inputs, the outputs that they read and their
/// tapes. So with uniform tapes the view has the simulator's distribution, and worlds of which the
/// group knows the same look the same.
pub fn views_are_simulated()
    ensures simulated { (w : World) (group : ℕ)
        → IsWhole w → LiesWithin (structure w.plan) group → IsSimulated w group }
    ensures known { (w : World) (other : InputLists) (tapes : List (List ℕ)) (group : ℕ)
        → CanCompare w other tapes group → KnownDecides w other tapes group }
{}

/// What the simulator is given of a world is what the members give, what they read and their tapes, and nothing else:
/// it is the same of another world of the plan exactly where these are.
pub fn known_is_the_members()
    ensures no_more { KnowsNoMore }
    ensures no_less { KnowsNoLess }
{}

/// With other inputs that can be hidden from it, a group's view passes each test for as many
/// choices of the others' tapes. So each view comes for as many.
pub fn views_are_even()
    ensures tests { (w : World) (other : InputLists) (group : ℕ)
        → CanHide w other group → IsPrivate w other group }
    ensures views { (w : World) (other : InputLists) (group : ℕ)
        → CanHide w other group → ViewsAreEven w other group }
    ensures equal { TestIsEqual }
{}

/// The choices are just the tapes of the plan that leave the members' own, each of them once. There
/// are as many as there are ways to fill all words that the others draw.
pub fn choices_are_all()
    ensures within { (w : World) (group : ℕ) → IsWhole w → ChoicesAreTapes w group }
    ensures found { (w : World) (group : ℕ) → TapesAreChoices w group }
    ensures differ { (w : World) (group : ℕ) → ChoicesDiffer w group }
    ensures many { (plan : Plan) (group : ℕ) (own : List (List ℕ)) → ChoicesAreMany plan group own }
{}

/// The worked job of one product, in the ring of one bit, by computation.
pub fn multiply_counts()
    ensures choices_for_a { ChoicesForA }
    ensures ways_for_a { WaysForA }
    ensures ways_for_c { WaysForC }
    ensures ways_for_both { WaysForBoth }
    ensures known_to_a { KnownToA }
    ensures known_to_c { KnownToC }
{}
