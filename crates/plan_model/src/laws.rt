//! Laws of the numbering of messages and tape words.
ghost use Rattle.std.specs.Prelude.{ℕ};
ghost use Rattle.plan_model.specs.Plans.{Plan};
ghost use Rattle.plan_model.specs.Firsts.{PlacesByWords};
ghost use Rattle.plan_model.specs.Numbers.{NumbersAreInverse, PlacesDiffer, DealsHaveSlots, MasksHaveWords};
ghost use Rattle.plan_model.specs.Patterns.{SlotsFollowPatterns};

/// Messages and their numbers are each other's inverse.
pub fn numbers_are_inverse()
    ensures { (plan : Plan) → NumbersAreInverse plan }
{}

/// No tape word of a party serves twice, a slot's words stand behind those of the slots before it, and the summands of
/// a mask are words of their own.
pub fn places_are_apart()
    ensures apart { (plan : Plan) (p : ℕ) → PlacesDiffer plan p }
    ensures by_words { (plan : Plan) (p : ℕ) → PlacesByWords plan p }
    ensures masks { (plan : Plan) → MasksHaveWords plan }
{}

/// The slots in which a party deals are those of its deals, in order.
pub fn deals_have_slots()
    ensures { (plan : Plan) (p : ℕ) → DealsHaveSlots plan p }
{}

/// The messages of a slot are the transfers of its pattern, named by the slot.
pub fn slots_follow_patterns()
    ensures { (plan : Plan) → SlotsFollowPatterns plan }
{}
