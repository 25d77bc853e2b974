ghost use Rattle.std.specs.Prelude.{◌≡◌, [], ◌+◌, ◌<◌, ◌⊎◌, ◌↔◌, ◌==◌, IsTrue, length};
ghost use Rattle.std.specs.List.{All};
ghost use Rattle.param_expr.specs.Eval.{RefersBelow};
ghost use Rattle.pisdf_model.specs.Parts.{port_count};
ghost use Rattle.pisdf_model.specs.Range.{InRange, IsActorInRange, IsBodyInRange, IsEndInRange, IsFifoInRange, IsGraphInRange, IsInterfaceInRange, IsParamInRange, IsPortInRange, EachGraphInRange, first_life, life_of};

use crate::actor::{Actor, Body, Port};
use crate::fifo::{End, Fifo, Life};
use crate::graph::{Graph, Graphs, Interface};
use crate::param::{Param, ParamKind};
use crate::parts::{input_count, output_count};
use param_expr::{Expr, ExprForm};

fn refers_below(expr: &Expr, params: usize) -> bool
    ensures { IsTrue result ↔ RefersBelow params expr.now }
{
    match &expr.form {
        ExprForm::Number(_) => true,
        ExprForm::Param(place) => (*place as usize) < params,
        ExprForm::Binary(_, lhs, rhs) => refers_below(lhs, params) && refers_below(rhs, params),
    }
}

fn all_refer_below(exprs: &[Expr], params: usize) -> bool
    ensures { IsTrue result ↔ All (λ e. RefersBelow params e) exprs.now }
{
    exprs.iter().all(|expr| refers_below(expr, params))
}

fn all_ports_in_range(ports: &[Port], params: usize) -> bool
    ensures { IsTrue result ↔ All (λ p. IsPortInRange params p) ports.now }
{
    ports.iter().all(|port| refers_below(&port.rate, params))
}

fn all_interfaces_in_range(interfaces: &[Interface], params: usize) -> bool
    ensures { IsTrue result ↔ All (λ x. IsInterfaceInRange params x) interfaces.now }
{
    interfaces
        .iter()
        .all(|interface| refers_below(&interface.rate, params))
}

fn param_in_range(param: &Param, params: usize) -> bool
    ensures { IsTrue result ↔ IsParamInRange params param.now }
{
    match &param.kind {
        ParamKind::Derived(expr) => refers_below(expr, params),
        ParamKind::Inherited | ParamKind::Chosen => true,
    }
}

fn all_params_in_range(list: &[Param], params: usize) -> bool
    ensures { IsTrue result ↔ All (λ p. IsParamInRange params p) list.now }
{
    list.iter().all(|param| param_in_range(param, params))
}

fn all_below(places: &[u32], params: usize) -> bool
    ensures { IsTrue result ↔ All (λ i. i < params) places.now }
{
    places.iter().all(|place| (*place as usize) < params)
}

fn body_in_range(version: u32, body: &Body, graphs: usize, params: usize) -> bool
    ensures { IsTrue result ↔ IsBodyInRange version graphs params body.now }
{
    match body {
        Body::Kernel {
            args,
            ins,
            outs,
            ..
        } => {
            all_refer_below(args.items(), params)
                && all_ports_in_range(ins.items(), params)
                && all_ports_in_range(outs.items(), params)
        }
        Body::Config {
            args,
            outs,
            sets,
            ..
        } => {
            all_refer_below(args.items(), params)
                && all_ports_in_range(outs.items(), params)
                && all_below(sets.items(), params)
        }
        Body::Child { graph, args } => {
            (*graph as usize) < graphs && all_refer_below(args.items(), params)
        }
        Body::ConfigChild { graph, args, sets } => {
            version == 3
                && (*graph as usize) < graphs
                && all_refer_below(args.items(), params)
                && all_below(sets.items(), params)
        }
    }
}

fn all_actors_in_range(version: u32, actors: &[Actor], graphs: usize, params: usize) -> bool
    ensures { IsTrue result ↔ All (λ a. IsActorInRange version graphs params a) actors.now }
{
    actors.iter().all(|actor| body_in_range(version, &actor.body, graphs, params))
}

fn is_below_sum(place: usize, first: usize, second: usize) -> bool
    ensures { IsTrue result ↔ place < first + second }
{
    place < first || place - first < second
}

fn has_port(graphs: &[Graph], body: &Body, port: usize) -> bool
    ensures { IsTrue result ↔ port < port_count graphs.now body.now }
{
    is_below_sum(port, input_count(graphs, body), output_count(graphs, body))
}

fn end_in_range(end: &End, graphs: &[Graph], graph: &Graph) -> bool
    ensures { IsTrue result ↔ IsEndInRange graphs.now graph.now end.now }
{
    match end {
        End::Interface(place) => is_below_sum(
            *place as usize,
            graph.inputs.items().len(),
            graph.outputs.items().len(),
        ),
        End::Port { actor, port } => match graph.actors.items().get(*actor as usize) {
            Some(actor) => has_port(graphs, &actor.body, *port as usize),
            None => false,
        },
    }
}

fn first_life(is_top: bool) -> Life
    ensures { result ≡ first_life is_top }
{
    if is_top {
        Life::Permanent
    } else {
        Life::Firing
    }
}

/// The life of a delay in a graph that is the top one or not, where a file of this version states a life for it. A delay
/// without tokens lives for a firing. In version 1, which states no lives, one with tokens is permanent in the top graph
/// and lives for a firing in the others.
pub fn life_of(version: u32, is_top: bool, stated: Life, delay: &[i64]) -> Life
    ensures { result ≡ life_of version is_top stated delay.now }
{
    if delay.is_empty() {
        Life::Firing
    } else if version == 1 {
        first_life(is_top)
    } else {
        stated
    }
}

fn fifo_in_range(version: u32, fifo: &Fifo, graphs: &[Graph], is_top: bool, graph: &Graph) -> bool
    ensures { IsTrue result ↔ IsFifoInRange version graphs.now is_top graph.now fifo.now }
{
    end_in_range(&fifo.tail, graphs, graph)
        && end_in_range(&fifo.head, graphs, graph)
        && fifo.life == life_of(version, is_top, fifo.life, fifo.delay.items())
}

fn all_fifos_in_range(version: u32, graphs: &[Graph], is_top: bool, graph: &Graph) -> bool
    ensures { IsTrue result ↔ All (λ f. IsFifoInRange version graphs.now is_top graph.now f) graph.now.fifos }
{
    graph
        .fifos
        .items()
        .iter()
        .all(|fifo| fifo_in_range(version, fifo, graphs, is_top, graph))
}

/// Whether a graph's exports are parameters of it, and there only in a version that has them.
fn exports_in_range(version: u32, exports: &[u32], params: usize) -> bool
    ensures { IsTrue result ↔ All (λ i. i < params) exports.now × ((version ≡ 3) ⊎ (exports.now ≡ [])) }
{
    all_below(exports, params) && (version == 3 || exports.is_empty())
}

fn graph_in_range(version: u32, graphs: &[Graph], is_top: bool, graph: &Graph) -> bool
    ensures { IsTrue result ↔ IsGraphInRange version graphs.now is_top graph.now }
{
    let params = graph.params.items().len();
    all_params_in_range(graph.params.items(), params)
        && all_interfaces_in_range(graph.inputs.items(), params)
        && all_interfaces_in_range(graph.outputs.items(), params)
        && all_actors_in_range(version, graph.actors.items(), graphs.len(), params)
        && all_fifos_in_range(version, graphs, is_top, graph)
        && exports_in_range(version, graph.exports.items(), params)
}

fn each_graph_in_range(version: u32, graphs: &[Graph], top: usize) -> bool
    ensures { IsTrue result ↔ EachGraphInRange version top graphs.now }
{
    for (number, graph) in graphs.iter().enumerate() {
        if !graph_in_range(version, graphs, number == top, graph) {
            return false;
        }
    }
    true
}

/// Whether every number that refers to a part refers to one that is there, the version is 1, 2 or 3, and nothing stands
/// that the version doesn't have. In all versions a delay without tokens lives for a firing. In version 1 one with tokens
/// is permanent in the top graph and lives for a firing in the others. Versions 1 and 2 have neither exports nor
/// hierarchical configuration actors.
///
/// The place of a kernel among the signatures isn't asked.
pub fn in_range(graphs: &Graphs) -> bool
    ensures { IsTrue result ↔ InRange graphs.now }
{
    1 <= graphs.version
        && graphs.version <= 3
        && (graphs.top as usize) < graphs.graphs.items().len()
        && each_graph_in_range(graphs.version, graphs.graphs.items(), graphs.top as usize)
}
