use sdf_level::List;
use std::marker::Model;

/// What is known of a graph before its configuration actors fire.
#[derive(Debug, Drop)]
pub struct Early {
    /// The value of each early parameter, and none of a late one.
    pub values: List<Option<i64>>,
    /// The rate of each input interface.
    pub inputs: List<u32>,
    /// The rate of each output interface.
    pub outputs: List<u32>,
    /// The arguments of each configuration actor.
    pub args: List<List<i64>>,
    /// The output rates of each configuration actor.
    pub outs: List<List<u32>>,
    /// What is known of the graph that each configuration actor names, if it names one.
    pub children: Vec<Option<Early>>,
}

impl Model for Early {
    ghost use Rattle.param_resolver.specs.EarlyView.{EarlyView, early_code, early_size};

    ghost Value = { EarlyView };

    ghost coded = { early_code };

    ghost use Rattle.param_resolver.specs.EarlyView.{child_size_bound, forest_of};
    ghost use Rattle.std.proofs.Common.{arith};

    ghost view = { λ e. record { values = e.values; inputs = e.inputs; outputs = e.outputs; args = e.args; outs = e.outs; children = forest_of e.children.items } };

    ghost size = { early_size };

    ghost size_decreases = { λ a h. child_size_bound _ (Prim.omega arith) (λ e. Prim.omega arith) a.children.items };
}
