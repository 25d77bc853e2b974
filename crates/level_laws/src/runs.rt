// Laws of the runs of an unfolded level. All but the last two ask that a firing gives each output port as many tokens as
// its rate, and that each link starts with as many as its delay.
ghost use Rattle.level_laws.specs.Laws.{CopiesTakeItsPlace, EndsAreJoined, IterationsGoInTurn, IterationsHaveParts, LevelRunsAreCut, PartsGoAtOnce, RunsAreCut, RunsHaveLike, TokensAreCut};

/// The tokens of an unfolded level don't depend on the order: its run of one thread ends as the run over copies of any
/// admissible list of one iteration.
pub fn copies_run<T, F, R>()
    ensures { CopiesTakeItsPlace T F R }
{}

/// A run over copies of an admissible list is a run over the first and then a run over the others. The first takes the
/// tokens of one iteration from each source, the others the rest; these begin with what the first left on the links, and
/// their firings are numbered after those of the first.
pub fn runs_cut<T, F, R>()
    ensures { RunsAreCut T F R }
{}

/// What the run over copies keeps at each sink is what the first keeps there and then what the others keep; what it leaves
/// on the links is what the others leave.
pub fn ends_joined<T, F, R>()
    ensures { EndsAreJoined T F R }
{}

/// The run of one thread through an unfolded level is that through one iteration and then that through the others, and so
/// the runs of all iterations one after another, each begun with what the one before it left.
pub fn level_runs_cut<T, F, R>()
    ensures one { LevelRunsAreCut T F R }
    ensures all { IterationsGoInTurn T F R }
{}

/// The run of one thread through an unfolded level is the runs of the iterations, each from its equal part of the tokens of
/// each source, and each keeping its equal part of the tokens at each sink.
pub fn parts_run<T, F, R>()
    ensures there { IterationsHaveParts T F R }
    ensures back { PartsGoAtOnce T F R }
{}

/// The sources that hold the tokens of several iterations hold those of one, and then those of the others.
pub fn tokens_cut<T>()
    ensures { TokensAreCut T }
{}

/// A run of one thread stays one where each of its firings is a firing of another kind too.
pub fn runs_like<T, F, R, Q>()
    ensures { RunsHaveLike T F R Q }
{}
