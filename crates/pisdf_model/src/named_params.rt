// The parameters that expressions name.
ghost use Rattle.std.specs.Prelude.{◌≡◌, ◌++◌, map, IfOk, OnOk};
ghost use Rattle.std.specs.List.{flat_map};
ghost use Rattle.pisdf_model.specs.ParamOrder.{places_of, refers, config_places, early_places};

use crate::actor::{Actor, Body, Port};
use crate::graph::{Graph, Interface};
use crate::param::{Param, ParamKind};
use param_expr::{Expr, ExprForm};
use sdf_level::List;
use std::alloc::{AllocError, Global};

/// Adds the parameters that an expression names, from the left.
fn add_places(expr: &Expr, places: &mut Vec<u32>) -> Result<(), AllocError>
    ensures { OnOk result (places.new.items ≡ places.old.items ++ places_of expr.now) }
{
    match &expr.form {
        ExprForm::Number(_) => Ok(()),
        ExprForm::Param(place) => {
            places.push(*place)?;
            Ok(())
        }
        ExprForm::Binary(_, lhs, rhs) => {
            add_places(lhs, places)?;
            add_places(rhs, places)
        }
    }
}

/// The places of the parameters that a parameter refers to, from the left. The error is want of memory.
pub fn refers(alloc: Global, kind: &ParamKind) -> Result<Vec<u32>, AllocError>
    ensures { IfOk result (λ v. v.items ≡ refers kind.now) }
{
    let mut places = Vec::new(alloc);
    match kind {
        ParamKind::Derived(expr) => add_places(expr, &mut places)?,
        _ => {}
    }
    Ok(places)
}

/// What each parameter refers to.
pub(crate) fn references(alloc: Global, params: &[Param]) -> Result<Vec<List<u32>>, AllocError>
    ensures { IfOk result (λ v. v.items ≡ map (λ p. refers p.kind) params.now) }
{
    let mut references = Vec::with_capacity(alloc, params.len())?;
    for param in params {
        references.push(List::new(refers(alloc, &param.kind)?))?;
    }
    Ok(references)
}

fn add_interfaces(interfaces: &[Interface], places: &mut Vec<u32>) -> Result<(), AllocError>
    ensures { OnOk result (places.new.items ≡ places.old.items ++ flat_map (λ i. places_of i.rate) interfaces.now) }
{
    for interface in interfaces {
        add_places(&interface.rate, places)?;
    }
    Ok(())
}

fn add_args(args: &[Expr], places: &mut Vec<u32>) -> Result<(), AllocError>
    ensures { OnOk result (places.new.items ≡ places.old.items ++ flat_map places_of args.now) }
{
    for arg in args {
        add_places(arg, places)?;
    }
    Ok(())
}

fn add_ports(ports: &[Port], places: &mut Vec<u32>) -> Result<(), AllocError>
    ensures { OnOk result (places.new.items ≡ places.old.items ++ flat_map (λ port. places_of port.rate) ports.now) }
{
    for port in ports {
        add_places(&port.rate, places)?;
    }
    Ok(())
}

fn add_config(body: &Body, places: &mut Vec<u32>) -> Result<(), AllocError>
    ensures { OnOk result (places.new.items ≡ places.old.items ++ config_places body.now) }
{
    match body {
        Body::Config { args, outs, .. } => {
            add_args(args.items(), places)?;
            add_ports(outs.items(), places)
        }
        Body::ConfigChild { args, .. } => add_args(args.items(), places),
        _ => Ok(()),
    }
}

fn add_configs(actors: &[Actor], places: &mut Vec<u32>) -> Result<(), AllocError>
    ensures { OnOk result (places.new.items ≡ places.old.items ++ flat_map (λ a. config_places a.body) actors.now) }
{
    for actor in actors {
        add_config(&actor.body, places)?;
    }
    Ok(())
}

/// The parameters that must be early, in the order in which the file names them: those of the interfaces' rates, and of
/// the arguments of configuration actors and the output rates of kernel configuration actors.
pub(crate) fn early_places(alloc: Global, graph: &Graph) -> Result<Vec<u32>, AllocError>
    ensures { IfOk result (λ v. v.items ≡ early_places graph.now) }
{
    let mut places = Vec::new(alloc);
    add_interfaces(graph.inputs.items(), &mut places)?;
    add_interfaces(graph.outputs.items(), &mut places)?;
    add_configs(graph.actors.items(), &mut places)?;
    Ok(places)
}
