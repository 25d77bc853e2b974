ghost use Rattle.std.specs.Prelude.{◌≡◌, IfOk, All, map};
ghost use Rattle.serde_json.specs.Data.{object};
ghost use Rattle.serde_json.specs.View.{view};
ghost use Rattle.graph_format.specs.Canonical.{actor_value, body_members};
ghost use Rattle.kernel_gate.specs.Signed.{signature_view};
ghost use Rattle.graph_format.specs.Kernels.{kernel_names};
ghost use Rattle.graph_format.specs.Named.{named_actor, named_body};
ghost use Rattle.graph_format.specs.Writable.{IsWritable, IsWritableActor, IsWritablePort};

use crate::list::Writer;
use crate::members::{with_list, with_text};
use crate::names::{graph_name, kernel_name};
use crate::param::Sets;
use crate::port::{Expressions, Inputs, Ports};
use graph_format::FileActor;
use kernel_gate::Signature;
use param_expr::{Expr, Name};
use pisdf_model::{Actor, Body, Graphs, Port};
use serde_json::{Map, Value};
use std::alloc::{AllocError, Global};

/// Writes actors of a graph whose parameters have these names.
#[derive(Clone, Copy)]
pub(crate) struct Actors<'a> {
    /// The kernels that actors name by places.
    pub(crate) signatures: &'a [Signature],
    /// The graphs that hierarchical actors name by places.
    pub(crate) graphs: &'a Graphs,
    pub(crate) names: &'a [Name],
}

impl Actors<'_> {
    /// A kernel actor of this name.
    fn kernel(
        &self,
        alloc: Global,
        name: &str,
        kernel: u32,
        args: &[Expr],
        ins: &[Port],
        outs: &[Port],
    ) -> Result<Value, AllocError>
        requires args { All (IsWritable self.now.names.now) args.now }
        requires ins { All (IsWritablePort self.now.names.now) ins.now }
        requires outs { All (IsWritablePort self.now.names.now) outs.now }
        ensures { IfOk result (λ v. view v ≡ object (body_members name.now (named_body (kernel_names (map signature_view self.now.signatures.now)) self.now.graphs.now self.now.names.now (Body.Kernel kernel args.now ins.now outs.now)))) }
    {
        let names = self.names;
        let kernel = kernel_name(self.signatures, kernel);
        let members = with_list(alloc, Map::new(alloc), "outs", &Ports { names }, outs)?;
        let members = with_text(alloc, members, "name", name)?;
        let members = with_text(alloc, members, "kind", "kernel")?;
        let members = with_text(alloc, members, "kernel", kernel)?;
        let members = with_list(alloc, members, "ins", &Ports { names }, ins)?;
        let members = with_list(alloc, members, "args", &Expressions { names }, args)?;
        Ok(Value::Object(members))
    }

    /// A configuration actor of this name.
    fn config(
        &self,
        alloc: Global,
        name: &str,
        kernel: u32,
        args: &[Expr],
        ins: &[Name],
        outs: &[Port],
        sets: &[u32],
    ) -> Result<Value, AllocError>
        requires args { All (IsWritable self.now.names.now) args.now }
        requires outs { All (IsWritablePort self.now.names.now) outs.now }
        ensures { IfOk result (λ v. view v ≡ object (body_members name.now (named_body (kernel_names (map signature_view self.now.signatures.now)) self.now.graphs.now self.now.names.now (Body.Config kernel args.now ins.now outs.now sets.now)))) }
    {
        let names = self.names;
        let kernel = kernel_name(self.signatures, kernel);
        let members = with_list(alloc, Map::new(alloc), "sets", &Sets { names }, sets)?;
        let members = with_list(alloc, members, "outs", &Ports { names }, outs)?;
        let members = with_text(alloc, members, "name", name)?;
        let members = with_text(alloc, members, "kind", "config")?;
        let members = with_text(alloc, members, "kernel", kernel)?;
        let members = with_list(alloc, members, "ins", &Inputs, ins)?;
        let members = with_list(alloc, members, "args", &Expressions { names }, args)?;
        Ok(Value::Object(members))
    }

    /// A hierarchical actor of this name.
    fn child(
        &self,
        alloc: Global,
        name: &str,
        graph: u32,
        args: &[Expr],
    ) -> Result<Value, AllocError>
        requires { All (IsWritable self.now.names.now) args.now }
        ensures { IfOk result (λ v. view v ≡ object (body_members name.now (named_body (kernel_names (map signature_view self.now.signatures.now)) self.now.graphs.now self.now.names.now (Body.Child graph args.now)))) }
    {
        let names = self.names;
        let graph = graph_name(self.graphs, graph);
        let members = with_text(alloc, Map::new(alloc), "name", name)?;
        let members = with_text(alloc, members, "kind", "graph")?;
        let members = with_text(alloc, members, "graph", graph)?;
        let members = with_list(alloc, members, "args", &Expressions { names }, args)?;
        Ok(Value::Object(members))
    }

    /// A hierarchical configuration actor of this name.
    fn config_child(
        &self,
        alloc: Global,
        name: &str,
        graph: u32,
        args: &[Expr],
        sets: &[u32],
    ) -> Result<Value, AllocError>
        requires { All (IsWritable self.now.names.now) args.now }
        ensures { IfOk result (λ v. view v ≡ object (body_members name.now (named_body (kernel_names (map signature_view self.now.signatures.now)) self.now.graphs.now self.now.names.now (Body.ConfigChild graph args.now sets.now)))) }
    {
        let names = self.names;
        let graph = graph_name(self.graphs, graph);
        let members = with_list(alloc, Map::new(alloc), "sets", &Sets { names }, sets)?;
        let members = with_text(alloc, members, "name", name)?;
        let members = with_text(alloc, members, "kind", "setgraph")?;
        let members = with_text(alloc, members, "graph", graph)?;
        let members = with_list(alloc, members, "args", &Expressions { names }, args)?;
        Ok(Value::Object(members))
    }
}

impl Writer for Actors<'_> {
    type Part = Actor;

    type Stated = FileActor;

    ghost IsWritable = { λ w actor. IsWritableActor w.names.now actor };

    ghost named = { λ w actor. named_actor (kernel_names (map signature_view w.signatures.now)) w.graphs.now w.names.now actor };

    ghost shown = { λ w. actor_value };

    ghost IsKept = { λ part. Unit {0} };

    #[tactic(auto, unfolding(graph_format::specs::Canonical::actor_value))]
    fn value(&self, alloc: Global, actor: &Actor) -> Result<Value, AllocError> {
        let name = actor.name.text();
        match &actor.body {
            Body::Kernel {
                kernel,
                args,
                ins,
                outs,
            } => {
                let args = args.items();
                self.kernel(alloc, name, *kernel, args, ins.items(), outs.items())
            }
            Body::Config {
                kernel,
                args,
                ins,
                outs,
                sets,
            } => {
                let args = args.items();
                self.config(
                    alloc,
                    name,
                    *kernel,
                    args,
                    ins.items(),
                    outs.items(),
                    sets.items(),
                )
            }
            Body::Child { graph, args } => self.child(alloc, name, *graph, args.items()),
            Body::ConfigChild { graph, args, sets } => {
                self.config_child(alloc, name, *graph, args.items(), sets.items())
            }
        }
    }
}
