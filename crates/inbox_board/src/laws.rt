//! What the words of an inbox and its mark come to.
ghost use Rattle.std.specs.Prelude.{◌≡◌, Bool, Some};
ghost use Rattle.inbox_board.specs.Seats.{mark_of, mark_as};
ghost use Rattle.inbox_board.specs.Folds.{FoldTells};

/// What a reader got was pushed, once its seat and the writer's are folded.
pub fn what_was_got_was_pushed()
    ensures { FoldTells }
{}

/// The mark of an end is read back as that end.
pub fn a_mark_tells_the_end()
    ensures { (fault : Bool) → mark_as (mark_of fault) ≡ Some fault }
{}
