ghost use Rattle.std.specs.Prelude.{map};
ghost use Rattle.graph_format.specs.Canonical.{graph_value};
ghost use Rattle.kernel_gate.specs.Signed.{signature_view};
ghost use Rattle.graph_format.specs.Kernels.{kernel_names};
ghost use Rattle.graph_format.specs.Named.{named_graph};
ghost use Rattle.graph_writer.specs.ReadAgain.{HasI64Tokens};
ghost use Rattle.graph_format.specs.Writable.{IsWritableGraph};

use crate::actor::Actors;
use crate::fifo::Fifos;
use crate::list::Writer;
use crate::members::{with_list, with_text};
use crate::names::param_names;
use crate::param::{Params, Sets};
use crate::port::Interfaces;
use graph_format::FileGraph;
use kernel_gate::Signature;
use pisdf_model::{Graph, Graphs};
use serde_json::{Map, Value};
use std::alloc::{AllocError, Global};

/// Writes graphs.
#[derive(Clone, Copy)]
pub(crate) struct GraphList<'a> {
    pub(crate) signatures: &'a [Signature],
    pub(crate) graphs: &'a Graphs,
}

impl Writer for GraphList<'_> {
    type Part = Graph;

    type Stated = FileGraph;

    ghost IsWritable = { λ w graph. IsWritableGraph graph };

    ghost named = { λ w graph. named_graph (kernel_names (map signature_view w.signatures.now)) w.graphs.now graph };

    ghost shown = { λ w. graph_value w.graphs.now.version };

    ghost IsKept = { HasI64Tokens };

    #[tactic(auto, unfolding(graph_format::specs::Canonical::graph_value, graph_format::specs::Named::named_graph))]
    fn value(&self, alloc: Global, graph: &Graph) -> Result<Value, AllocError> {
        let names = param_names(alloc, graph.params.items())?;
        let names = names.as_slice();
        let params = graph.params.items();
        let members = with_list(alloc, Map::new(alloc), "params", &Params { names }, params)?;
        let outputs = graph.outputs.items();
        let members = with_list(alloc, members, "outputs", &Interfaces { names }, outputs)?;
        let members = with_text(alloc, members, "name", graph.name.text())?;
        let inputs = graph.inputs.items();
        let members = with_list(alloc, members, "inputs", &Interfaces { names }, inputs)?;
        let fifos = Fifos {
            graphs: self.graphs,
            graph,
        };
        let members = with_list(alloc, members, "fifos", &fifos, graph.fifos.items())?;
        let actors = Actors {
            signatures: self.signatures,
            graphs: self.graphs,
            names,
        };
        if self.graphs.version < 3 {
            let members = with_list(alloc, members, "actors", &actors, graph.actors.items())?;
            return Ok(Value::Object(members));
        }
        let exports = graph.exports.items();
        let members = with_list(alloc, members, "exports", &Sets { names }, exports)?;
        let members = with_list(alloc, members, "actors", &actors, graph.actors.items())?;
        Ok(Value::Object(members))
    }
}
