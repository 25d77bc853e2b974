// Copies of the parts of graphs.
ghost use Rattle.std.specs.Prelude.{◌≡◌, IfOk};

use crate::actor::{Actor, Body, Port};
use crate::fifo::Fifo;
use crate::graph::{Graph, Interface};
use crate::param::{Param, ParamKind};
use param_expr::{Expr, ExprForm, Name};
use sdf_level::List;
use std::alloc::{AllocError, Global};

/// What can be copied where there is memory: graphs and their parts.
pub trait Copied: Drop + Sized {
    /// An equal one.
    ///
    /// # Errors
    ///
    /// Want of memory.
    fn copied(&self, alloc: Global) -> Result<Self, AllocError>
        ensures { IfOk result (λ copy. copy ≡ self.now) };
}

/// Copies of graphs, or of parts of them, in their order.
///
/// # Errors
///
/// Want of memory.
pub fn copies<T: Copied>(alloc: Global, items: &[T]) -> Result<List<T>, AllocError>
    ensures { IfOk result (λ copies. copies ≡ items.now) }
{
    let mut copies = Vec::with_capacity(alloc, items.len())?;
    for item in items {
        let copy = item.copied(alloc)?;
        copies.push(copy)?;
    }
    Ok(List::new(copies))
}

/// A copy of an expression.
fn expression(alloc: Global, expr: &Expr) -> Result<Expr, AllocError>
    ensures { IfOk result (λ copy. copy ≡ expr.now) }
{
    match &expr.form {
        ExprForm::Number(value) => Ok(Expr::number(*value)),
        ExprForm::Param(place) => Ok(Expr::param(*place)),
        ExprForm::Binary(op, lhs, rhs) => {
            let lhs = expression(alloc, lhs)?;
            let rhs = expression(alloc, rhs)?;
            Expr::binary(alloc, *op, lhs, rhs)
        }
    }
}

impl Copied for u32 {
    fn copied(&self, _alloc: Global) -> Result<u32, AllocError> {
        let value = *self;
        Ok(value)
    }
}

impl Copied for i64 {
    fn copied(&self, _alloc: Global) -> Result<i64, AllocError> {
        let value = *self;
        Ok(value)
    }
}

impl Copied for Name {
    fn copied(&self, _alloc: Global) -> Result<Name, AllocError> {
        self.clone()
    }
}

impl Copied for Expr {
    fn copied(&self, alloc: Global) -> Result<Expr, AllocError> {
        expression(alloc, self)
    }
}

impl Copied for ParamKind {
    fn copied(&self, alloc: Global) -> Result<ParamKind, AllocError> {
        match self {
            ParamKind::Inherited => Ok(ParamKind::Inherited),
            ParamKind::Derived(expr) => Ok(ParamKind::Derived(expression(alloc, expr)?)),
            ParamKind::Chosen => Ok(ParamKind::Chosen),
        }
    }
}

impl Copied for Param {
    fn copied(&self, alloc: Global) -> Result<Param, AllocError> {
        Ok(Param {
            name: self.name.clone()?,
            kind: self.kind.copied(alloc)?,
            low: self.low,
            high: self.high,
        })
    }
}

impl Copied for Interface {
    fn copied(&self, alloc: Global) -> Result<Interface, AllocError> {
        Ok(Interface {
            name: self.name.clone()?,
            rate: expression(alloc, &self.rate)?,
        })
    }
}

impl Copied for Port {
    fn copied(&self, alloc: Global) -> Result<Port, AllocError> {
        Ok(Port {
            name: self.name.clone()?,
            rate: expression(alloc, &self.rate)?,
        })
    }
}

impl Copied for Body {
    fn copied(&self, alloc: Global) -> Result<Body, AllocError> {
        match self {
            Body::Kernel {
                kernel,
                args,
                ins,
                outs,
            } => Ok(Body::Kernel {
                kernel: *kernel,
                args: copies(alloc, args.items())?,
                ins: copies(alloc, ins.items())?,
                outs: copies(alloc, outs.items())?,
            }),
            Body::Config {
                kernel,
                args,
                ins,
                outs,
                sets,
            } => Ok(Body::Config {
                kernel: *kernel,
                args: copies(alloc, args.items())?,
                ins: copies(alloc, ins.items())?,
                outs: copies(alloc, outs.items())?,
                sets: copies(alloc, sets.items())?,
            }),
            Body::Child { graph, args } => Ok(Body::Child {
                graph: *graph,
                args: copies(alloc, args.items())?,
            }),
            Body::ConfigChild { graph, args, sets } => Ok(Body::ConfigChild {
                graph: *graph,
                args: copies(alloc, args.items())?,
                sets: copies(alloc, sets.items())?,
            }),
        }
    }
}

impl Copied for Actor {
    fn copied(&self, alloc: Global) -> Result<Actor, AllocError> {
        Ok(Actor {
            name: self.name.clone()?,
            body: self.body.copied(alloc)?,
        })
    }
}

impl Copied for Fifo {
    fn copied(&self, alloc: Global) -> Result<Fifo, AllocError> {
        Ok(Fifo {
            tail: self.tail,
            head: self.head,
            delay: copies(alloc, self.delay.items())?,
            life: self.life,
        })
    }
}

impl Copied for Graph {
    fn copied(&self, alloc: Global) -> Result<Graph, AllocError> {
        Ok(Graph {
            name: self.name.clone()?,
            params: copies(alloc, self.params.items())?,
            inputs: copies(alloc, self.inputs.items())?,
            outputs: copies(alloc, self.outputs.items())?,
            actors: copies(alloc, self.actors.items())?,
            fifos: copies(alloc, self.fifos.items())?,
            exports: copies(alloc, self.exports.items())?,
        })
    }
}
