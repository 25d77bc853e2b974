ghost use Rattle.std.specs.Prelude.{◌≡◌, IfOk, List as Seq, map, MatchOption, None, Some};
ghost use Rattle.param_expr.specs.Bind.{place_of};
ghost use Rattle.graph_format.specs.declared.file.FileGraph.{FileGraph};
ghost use Rattle.graph_format.specs.Placed.{ports_named};
ghost use Rattle.graph_format.specs.KnownNames.{interfaces_of, ports_of, known_names};
ghost use Rattle.graph_reader.specs.Setting.{AreOf, ports_view, setting_of};

use crate::file_names::FileNames;
use crate::names::{Names, names_of};
use graph_format::{FileActor, FileGraph};
use param_expr::Name;
use sdf_level::List;
use std::alloc::{AllocError, Global};

/// What a delay becomes.
#[derive(Clone, Copy)]
pub(crate) enum Delays {
    /// Its tokens.
    Tokens,
    /// One token 0 where it isn't empty.
    Marks,
}

/// The ports of an actor.
#[derive(Drop)]
pub(crate) enum Ports<'b, 'a> {
    Own(Names<'a>),
    /// Those of a hierarchical actor are its child's interfaces.
    Child(&'b Names<'a>),
}

impl<'b, 'a> Ports<'b, 'a> {
    /// Their names: the inputs, then the outputs.
    fn names(&self) -> &Names<'a>
        ensures { result.now ≡ ports_view self.now }
    {
        match self {
            Ports::Own(names) => names,
            Ports::Child(names) => names,
        }
    }
}

/// What the parts of a graph can refer to by name, and what else they need to know. The file lends the names themselves
/// (`'a`), and `FileNames` those that all its graphs share (`'b`).
#[derive(Drop)]
pub(crate) struct Surroundings<'b, 'a> {
    pub(crate) graphs: &'b Names<'a>,
    pub(crate) kernels: &'b Names<'a>,
    pub(crate) params: Names<'a>,
    pub(crate) interfaces: &'b Names<'a>,
    pub(crate) actors: Names<'a>,
    /// For each actor, its ports.
    pub(crate) ports: List<Ports<'b, 'a>>,
    /// The version of the format that the file is of.
    pub(crate) version: u32,
    /// Whether the graph is the top one.
    pub(crate) is_top: bool,
    pub(crate) delays: Delays,
}

impl Surroundings<'_, '_> {
    /// The first actor of that name, and the first of its ports of that name.
    pub(crate) fn port_place(&self, actor: &Name, port: &Name) -> Option<(u32, u32)>
        ensures { let s = (setting_of self.now).scope in MatchOption result (place_of (ports_named s actor.now) port.now ≡ None)
            (λ places. (place_of s.actors actor.now ≡ Some places.0) × (place_of (ports_named s actor.now) port.now ≡ Some places.1)) }
    {
        let place = self.actors.place_of(actor)?;
        let ports = self.ports.items().get(place as usize)?;
        let port = ports.names().place_of(port)?;
        Some((place, port))
    }
}

/// The ports of each actor.
fn all_ports<'b, 'a>(
    alloc: Global,
    names: &'b FileNames<'a>,
    actors: &'a [FileActor],
) -> Result<List<Ports<'b, 'a>>, AllocError>
    ensures { (graphs : Seq FileGraph) → AreOf graphs names.now → IfOk result (λ all. map ports_view all ≡ map (λ actor. ports_of graphs actor.body) actors.now) }
{
    let mut all = Vec::new(alloc);
    for actor in actors {
        let ports = names.ports_of(alloc, &actor.body)?;
        all.push(ports)?;
    }
    Ok(List::new(all))
}

/// What the parts of a graph of a file are resolved in.
pub(crate) fn surroundings_of<'b, 'a>(
    alloc: Global,
    names: &'b FileNames<'a>,
    interfaces: &'b Names<'a>,
    graph: &'a FileGraph,
    version: u32,
    is_top: bool,
    delays: Delays,
) -> Result<Surroundings<'b, 'a>, AllocError>
    requires { interfaces.now ≡ interfaces_of graph.now }
    ensures { (graphs : Seq FileGraph) → AreOf graphs names.now
        → IfOk result (λ s. setting_of s ≡ record { scope = known_names names.now.kernels graphs graph.now; version = version; is_top = is_top; delays = delays }) }
{
    let params = names_of(alloc, graph.params.items())?;
    let actors = names_of(alloc, graph.actors.items())?;
    let ports = all_ports(alloc, names, graph.actors.items())?;
    Ok(Surroundings {
        graphs: &names.graphs,
        kernels: &names.kernels,
        params,
        interfaces,
        actors,
        ports,
        version,
        is_top,
        delays,
    })
}
