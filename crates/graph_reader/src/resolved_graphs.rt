// From a file to its graphs.
ghost use Rattle.std.specs.Prelude.{◌≡◌, ◌==◌, List as Seq, map};
ghost use Rattle.std.specs.List.{enumerate_from, flat_map};
ghost use Rattle.kernel_gate.specs.Signed.{signature_view};
ghost use Rattle.graph_format.specs.declared.file.FileGraph.{FileGraph};
ghost use Rattle.graph_format.specs.Kernels.{kernel_names};
ghost use Rattle.graph_format.specs.Placed.{placed, placed_graph};
ghost use Rattle.graph_format.specs.References.{unknown_in_file, unknown_in_graph};
ghost use Rattle.graph_format.specs.KnownNames.{interfaces_of, known_names};
ghost use Rattle.graph_reader.specs.Resolves.{Resolves};
ghost use Rattle.graph_reader.specs.Setting.{AreOf, delays_by};

use crate::file_names::FileNames;
use crate::names::Names;
use crate::resolved::{Resolved, resolve_each};
use crate::resolved_parts::reference;
use crate::surroundings::{Delays, Surroundings, surroundings_of};
use graph_format::{File, FileGraph};
use kernel_gate::Signature;
use param_expr::Name;
use pisdf_model::{DetailFault, Graph, Graphs};
use sdf_level::List;
use std::alloc::Global;

impl Resolved for Graph {
    type Source = FileGraph;

    ghost use Rattle.graph_format.specs.Placed.{placed_graph};
    ghost use Rattle.graph_format.specs.References.{unknown_in_graph};
    ghost use Rattle.graph_reader.specs.Setting.{delays_by};

    ghost unknown = { λ s graph. unknown_in_graph s.scope graph };

    ghost placed = { λ s graph. placed_graph s.version (delays_by s.delays) s.is_top s.scope graph };

    fn resolve(
        alloc: Global,
        surroundings: &Surroundings<'_, '_>,
        source: &FileGraph,
    ) -> Result<Graph, DetailFault<Name>> {
        let params = resolve_each(alloc, &*surroundings, source.params.items())?;
        let inputs = resolve_each(alloc, &*surroundings, source.inputs.items())?;
        let outputs = resolve_each(alloc, &*surroundings, source.outputs.items())?;
        let actors = resolve_each(alloc, &*surroundings, source.actors.items())?;
        let fifos = resolve_each(alloc, &*surroundings, source.fifos.items())?;
        let exports = resolve_each(alloc, &*surroundings, source.exports.items())?;
        let name = source.name.clone()?;
        Ok(Graph {
            name,
            params,
            inputs,
            outputs,
            actors,
            fifos,
            exports,
        })
    }
}

/// A graph of a file, with places for names.
fn resolve_graph<'a>(
    alloc: Global,
    names: &FileNames<'a>,
    interfaces: &Names<'a>,
    graph: &'a FileGraph,
    version: u32,
    is_top: bool,
    delays: Delays,
) -> Result<Graph, DetailFault<Name>>
    requires { interfaces.now ≡ interfaces_of graph.now }
    ensures { (graphs : Seq FileGraph) → AreOf graphs names.now
        → Resolves (unknown_in_graph (known_names names.now.kernels graphs graph.now) graph.now) (placed_graph version (delays_by delays) is_top (known_names names.now.kernels graphs graph.now) graph.now) result }
{
    let surroundings = surroundings_of(alloc, names, interfaces, graph, version, is_top, delays)?;
    let resolved = Graph::resolve(alloc, &surroundings, graph)?;
    Ok(resolved)
}

/// The graphs of a file, with places for names.
fn resolve_graphs<'a>(
    alloc: Global,
    names: &FileNames<'a>,
    version: u32,
    top: u32,
    delays: Delays,
    graphs: &'a [FileGraph],
) -> Result<List<Graph>, DetailFault<Name>>
    requires { AreOf graphs.now names.now }
    ensures { Resolves (flat_map (λ graph. unknown_in_graph (known_names names.now.kernels graphs.now graph) graph) graphs.now)
        (map (λ numbered. placed_graph version (delays_by delays) (numbered.0 == top) (known_names names.now.kernels graphs.now numbered.1) numbered.1) (enumerate_from 0 graphs.now)) result }
{
    let mut resolved = Vec::new(alloc);
    for (place, graph) in graphs.iter().enumerate() {
        let interfaces = &names.interfaces.items()[place];
        let is_top = place == top as usize;
        let one = resolve_graph(alloc, names, interfaces, graph, version, is_top, delays)?;
        resolved.push(one)?;
    }
    Ok(List::new(resolved))
}

/// The graphs that a file means, with its delays as they are or marked.
///
/// # Errors
///
/// - `Unknown`: the first reference in the file that names nothing of the kind that its place asks for.
/// - `Memory`: want of memory.
pub(crate) fn graphs_of(
    alloc: Global,
    file: &File,
    signatures: &[Signature],
    delays: Delays,
) -> Result<Graphs, DetailFault<Name>>
    ensures { Resolves (unknown_in_file file.now) (placed (delays_by delays) (kernel_names (map signature_view signatures.now)) file.now) result }
{
    let parts = file.graphs.items();
    let names = FileNames::new(alloc, signatures, parts)?;
    let top = reference(&names.graphs, &file.top)?;
    let graphs = resolve_graphs(alloc, &names, file.version, top, delays, parts)?;
    Ok(Graphs {
        version: file.version,
        top,
        graphs,
    })
}
