// Laws of the definitions of levels, for whoever proves something above them. The functions do nothing; their contracts are
// the laws. They hold for tokens of any type, for faults of any type, and for any relation between a firing's inputs and
// its answer: a kernel's, which a function gives, and that of a graph in a graph, which none gives.
ghost use Rattle.std.specs.Prelude.{ℕ, List as Seq};
ghost use Rattle.sdf_level.specs.View.{LevelView};
ghost use Rattle.sdf_level.specs.Invariants.{IsLevel};
ghost use Rattle.sdf_level.specs.Repetition.{IsRepetition};
ghost use Rattle.sdf_level.specs.Laws.{OrdersGiveSameTokens, OrdersAreToldAlike, RunsAreTold, FaultsAreTold, ReadsStay, ReadsAreFinal, ToldHaveRates, LeavesDelays, KeepsRates, RunsHaveImages, LevelRunsHaveImages, LinesHaveImages, ReadsHaveImages, Suffices};

/// The tokens don't depend on the order of the firings: where the firings of one admissible list meet no fault, those of
/// every other meet none, and every admissible list puts the same tokens on every link in the same order. Each firing has
/// to give each output port as many tokens as its rate, and each link to start with as many as its delay.
pub fn same_tokens<T, F, R>()
    ensures lines { OrdersGiveSameTokens T F R }
    ensures made { OrdersAreToldAlike T F R }
{}

/// A run without a fault is told by what each of its firings made, and one with a fault by what those before it made.
pub fn runs_told<T, F, R>()
    ensures told { RunsAreTold T F R }
    ensures faults { FaultsAreTold T F R }
{}

/// What a firing reads in its turn is what it would read after more firings, and so once all have fired, where each firing
/// made as many tokens for each output port as its rate, and each link starts with as many as its delay. The firings of an
/// admissible list made as many as their rates, where firings that can be give as many.
pub fn reads_final<T, F, R>()
    ensures stay { ReadsStay T }
    ensures last { ReadsAreFinal T }
    ensures rates { ToldHaveRates T F R }
{}

/// The lengths of what a run leaves, under the same premises: on each link as many tokens as its delay, so that the next
/// run can start with them, and in each sink as many as its rate.
pub fn lengths_kept<T, F, R>()
    ensures delays { LeavesDelays T F R }
    ensures rates { KeepsRates T F R }
{}

/// Where each token has an image, and firings of images give the images of what firings give, a run over the images comes
/// to the image of what the run comes to. Lines, and what is read of them, have their images without a run.
pub fn runs_mapped<S, T, F, R, Q>()
    ensures runs { RunsHaveImages S T F R Q }
    ensures level_runs { LevelRunsHaveImages S T F R Q }
    ensures lines { LinesHaveImages S T }
    ensures reads { ReadsHaveImages S T }
{}

/// A repetition vector has an entry of at least 1 for each actor of a level, balances each link between two actors, and
/// takes and gives at least the rate of each source and sink.
pub fn repetition_suffices()
    ensures { (level : LevelView) (q : Seq ℕ) → IsLevel level → IsRepetition level q → Suffices level q }
{}
