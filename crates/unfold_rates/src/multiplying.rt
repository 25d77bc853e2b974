// Copies of graphs in which the interfaces of the top graph have multiples of their rates.
ghost use Rattle.std.specs.Prelude.{◌≡◌, ◌==◌, ◌<◌, ◌≤◌, map, length, IfOk, if◌then◌else◌};
ghost use Rattle.unfold_rates.specs.Multiplied.{multiplied_at, multiplied_graph, multiplied_interface, unfolded_graphs};

use param_expr::{Expr, Op};
use pisdf_model::{Copied, Graph, Graphs, Interface, copies};
use sdf_level::List;
use std::alloc::{AllocError, Global};

/// A copy of an interface with so many times its rate.
fn multiplied_interface(
    alloc: Global,
    interface: &Interface,
    times: u32,
) -> Result<Interface, AllocError>
    ensures { IfOk result (λ x. x ≡ multiplied_interface times interface.now) }
{
    let rate = interface.rate.copied(alloc)?;
    Ok(Interface {
        name: interface.name.clone()?,
        rate: Expr::binary(alloc, Op::Mul, rate, Expr::number(times as i64))?,
    })
}

fn multiplied_interfaces(
    alloc: Global,
    interfaces: &[Interface],
    times: u32,
) -> Result<List<Interface>, AllocError>
    ensures { IfOk result (λ list. list ≡ map (multiplied_interface times) interfaces.now) }
{
    let mut list = Vec::with_capacity(alloc, interfaces.len())?;
    for interface in interfaces {
        list.push(multiplied_interface(alloc, interface, times)?)?;
    }
    Ok(List::new(list))
}

/// A copy of a graph whose interfaces have so many times their rates.
fn multiplied_graph(alloc: Global, graph: &Graph, times: u32) -> Result<Graph, AllocError>
    ensures { IfOk result (λ g. g ≡ multiplied_graph times graph.now) }
{
    Ok(Graph {
        name: graph.name.clone()?,
        params: copies(alloc, graph.params.items())?,
        inputs: multiplied_interfaces(alloc, graph.inputs.items(), times)?,
        outputs: multiplied_interfaces(alloc, graph.outputs.items(), times)?,
        actors: copies(alloc, graph.actors.items())?,
        fifos: copies(alloc, graph.fifos.items())?,
        exports: copies(alloc, graph.exports.items())?,
    })
}

/// A copy of a graph, which is multiplied where it is the top one.
fn copy_of(alloc: Global, graph: &Graph, is_top: bool, times: u32) -> Result<Graph, AllocError>
    ensures { IfOk result (λ g. g ≡ (if is_top then multiplied_graph times graph.now else graph.now)) }
{
    if is_top {
        multiplied_graph(alloc, graph, times)
    } else {
        graph.copied(alloc)
    }
}

/// The graphs in which each interface of the top graph has so many times its rate.
pub(crate) fn unfolded_graphs(
    alloc: Global,
    graphs: &Graphs,
    times: u32,
) -> Result<Graphs, AllocError>
    ensures { IfOk result (λ g. g ≡ unfolded_graphs graphs.now times) }
{
    let top = graphs.top as usize;
    let mut list = Vec::new(alloc);
    for (place, graph) in graphs.graphs.items().iter().enumerate() {
        list.push(copy_of(alloc, graph, place == top, times)?)?;
    }
    Ok(Graphs {
        version: graphs.version,
        top: graphs.top,
        graphs: List::new(list),
    })
}
