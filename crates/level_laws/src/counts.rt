// Laws of the counts, orders and schedules of an unfolded level.
ghost use Rattle.level_laws.specs.Laws.{CopiesAreAdmissible, CountsAreMultiplied, UnfoldedIsLevel, UnfoldedIsScheduled};

/// An unfolded level is a level, if its multiplied rates are within the limit.
pub fn unfolded_level()
    ensures { UnfoldedIsLevel }
{}

/// The repetition vector of an unfolded level is that of one iteration, multiplied. This holds where each component has a
/// source or sink of positive rate, and all firings of the actor there move just as many tokens as that rate.
pub fn counts_multiplied()
    ensures { CountsAreMultiplied }
{}

/// Copies of an admissible list of one iteration, one after another, are admissible for the unfolded level.
pub fn copies_admissible()
    ensures { CopiesAreAdmissible }
{}

/// An unfolded level has a schedule with the multiplied counts, if these are within the limits and one iteration has one.
pub fn unfolded_scheduled()
    ensures { UnfoldedIsScheduled }
{}
