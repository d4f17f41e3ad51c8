//! What a verdict on a text says.
ghost use Rattle.view_check.specs.Laws.{HeadsAreRead, YesIsView, HasOneAnswer, WrongWordsAreOthers};
ghost use Rattle.view_check.specs.WorldLaws.{WrittenViewsAreAccepted, AllSeeAll, OwnViewsHaveAll};

/// The first line of a view names one group, and is how that group is written.
pub fn heads_are_read()
    ensures { HeadsAreRead }
{}

/// A yes says just that the text has the lines of the view of a group, and counts its messages.
pub fn yes_is_a_view()
    ensures { YesIsView }
{}

/// Each text is the view of a group, with one count, or it has a fault, and no text is both.
pub fn each_text_has_one_answer()
    ensures { HasOneAnswer }
{}

/// Where a word is wrong, the wanted one is that of the line's message, and all lines before are right.
pub fn wrong_words_are_others()
    ensures { WrongWordsAreOthers }
{}

/// The view of each group of a world, as it is written, is accepted.
pub fn written_views_are_accepted()
    ensures { WrittenViewsAreAccepted }
{}

/// The group of all parties sees each message, with its word: a yes on it says that every word is right.
pub fn all_see_all()
    ensures { AllSeeAll }
{}

/// Each message is in the view of its sender alone, and of its receiver alone: where each party's own view is right,
/// every word is.
pub fn own_views_have_all()
    ensures { OwnViewsHaveAll }
{}
