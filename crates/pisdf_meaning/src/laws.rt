// Laws of the definitions, for whoever proves something above them. The functions do nothing; their contracts are the laws.
ghost use Rattle.std.specs.Prelude.{List as Seq};
ghost use Rattle.kernel_gate.specs.Signed.{Counts};
ghost use Rattle.pisdf_model.specs.Valid.{AreValid};
ghost use Rattle.pisdf_model.specs.declared.graph.Graph.{Graph};
ghost use Rattle.pisdf_model.specs.declared.graph.Graphs.{Graphs};
ghost use Rattle.pisdf_meaning.specs.Laws.{HasMeanings, HasOneMeaning, HasOneRun, HasRuns};
ghost use Rattle.kernel_gate.specs.Laws.{GiveLengths};
ghost use Rattle.pisdf_meaning.specs.Sizes.{KeepsSizes};
ghost use Rattle.pisdf_meaning.specs.Sound.{AllFit};

use level_schedule::schedules_exist;
use param_resolver::early_unfolds;

/// A firing of a graph has only one end: what it gives, its state and its trace, or the refusal, doesn't depend on who
/// makes it. Nor has a run more than one. This holds of any graphs.
pub fn one_meaning()
    ensures firings { (graphs : Seq Graph) → HasOneMeaning graphs }
    ensures runs { (graphs : Graphs) → HasOneRun graphs }
{}

/// A firing of a graph has an end, if the graph is there and its early check finds nothing: what it gives, or the refusal.
/// And a run has one, whatever its streams hold. This holds of valid graphs, and of any
/// inputs, states and kernels, whether or not there is memory to work it out. With `one_meaning` it is exactly one.
pub fn meanings_exist()
    ensures firings { (graphs : Graphs) → AreValid graphs → HasMeanings graphs.graphs }
    ensures runs { (graphs : Graphs) → AreValid graphs → HasRuns graphs }
{
    schedules_exist();
    early_unfolds();
}

/// A firing of a graph that is done gives each output as many tokens as its rate, and leaves a state whose lists are as
/// long as those with which the graph begins, if the firing began with lists of these lengths. It asks nothing of the
/// lengths of its inputs. So it is in valid graphs whose kernels fit signatures of kernels that give outputs of the
/// lengths that they are asked for.
pub fn sizes_kept()
    ensures { (signatures : Seq Counts) (graphs : Graphs) → AreValid graphs → AllFit signatures graphs.graphs → GiveLengths signatures → KeepsSizes graphs.graphs }
{}
