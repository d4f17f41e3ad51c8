//! The law of small samples.
ghost use Rattle.sample_maker.specs.Worked.{FiveIsWorked, OneIsWorked};

/// The samples of 1 and of 5 gates come to what was worked out by hand.
pub fn small_samples_are_as_worked()
    ensures one { OneIsWorked }
    ensures five { FiveIsWorked }
{}
