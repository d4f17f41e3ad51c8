//! The law of faults.
ghost use Rattle.std.specs.Prelude.{◌≡◌, ◌↔◌, ℕ, None};
ghost use Rattle.plan_model.specs.InputWords.{AreInputs, InputLists};
ghost use Rattle.share_world.specs.Laws.{IsWhole};
ghost use Rattle.share_world.specs.Worlds.{World};
ghost use Rattle.tape_map.specs.Laws.{CanHide};
ghost use Rattle.tape_map.specs.MapFaults.{map_fault};

/// There is no fault exactly where the other inputs can be hidden: the group is tolerated, and its
/// members give and read the same.
pub fn no_fault_where_it_can_be_hidden()
    ensures { (w : World) (other : InputLists) (group : ℕ)
        → IsWhole w → AreInputs w.plan other
        → (map_fault w other group ≡ None) ↔ CanHide w other group }
{}
