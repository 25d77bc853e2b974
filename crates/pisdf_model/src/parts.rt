ghost use Rattle.std.specs.Prelude.{◌≡◌, length};
ghost use Rattle.pisdf_model.specs.Parts.{input_count, output_names};

use crate::actor::{Body, Port};
use crate::graph::{Graph, Interface};
use crate::param::Param;
use param_expr::Name;

/// What has a name.
pub trait Named {
    ghost use Rattle.std.specs.Prelude.{List, ℕ};

    ghost named: { Self → List ℕ };

    /// The name.
    fn name(&self) -> &Name
        ensures { result.now ≡ named self.now };
}

impl Named for Name {
    ghost named = { λ n. n };

    fn name(&self) -> &Name {
        self
    }
}

impl Named for Port {
    ghost named = { λ p. p.name };

    fn name(&self) -> &Name {
        &self.name
    }
}

impl Named for Interface {
    ghost named = { λ x. x.name };

    fn name(&self) -> &Name {
        &self.name
    }
}

impl Named for Param {
    ghost named = { λ p. p.name };

    fn name(&self) -> &Name {
        &self.name
    }
}

/// How many inputs an actor has; those of a hierarchical actor are its child's.
pub fn input_count(graphs: &[Graph], body: &Body) -> usize
    ensures { result ≡ input_count graphs.now body.now }
{
    match body {
        Body::Kernel { ins, .. } => ins.items().len(),
        Body::Config { ins, .. } => ins.items().len(),
        Body::Child { graph, .. } | Body::ConfigChild { graph, .. } => {
            match graphs.get(*graph as usize) {
                Some(child) => child.inputs.items().len(),
                None => 0,
            }
        }
    }
}

/// How many outputs an actor has; those of a hierarchical actor are its child's.
pub fn output_count(graphs: &[Graph], body: &Body) -> usize
    ensures { result ≡ length (output_names graphs.now body.now) }
{
    match body {
        Body::Kernel { outs, .. } | Body::Config { outs, .. } => outs.items().len(),
        Body::Child { graph, .. } | Body::ConfigChild { graph, .. } => {
            match graphs.get(*graph as usize) {
                Some(child) => child.outputs.items().len(),
                None => 0,
            }
        }
    }
}
