// A law of the definitions, for whoever fires graphs. The function does nothing; its contract is the law.
ghost use Rattle.std.specs.Prelude.{List as Seq};
ghost use Rattle.kernel_gate.specs.Signed.{Counts};
ghost use Rattle.pisdf_model.specs.declared.graph.Graphs.{Graphs};
ghost use Rattle.pisdf_meaning.specs.Sound.{AreRunnable, AreValidFor};

use param_resolver::early_unfolds;

/// Valid graphs, whose actors' kernels fit the signatures of a gate, can be run.
pub fn runnable()
    ensures { (signatures : Seq Counts) (graphs : Graphs) → AreValidFor signatures graphs → AreRunnable signatures graphs }
{
    early_unfolds();
}
