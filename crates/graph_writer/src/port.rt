ghost use Rattle.std.specs.Prelude.{◌≡◌, IfOk};
ghost use Rattle.serde_json.specs.View.{view};
ghost use Rattle.param_expr.specs.Print.{with_names};
ghost use Rattle.graph_format.specs.Canonical.{expression_value, input_value, port_value};
ghost use Rattle.graph_format.specs.Named.{named_interface, named_port};
ghost use Rattle.graph_format.specs.Writable.{IsWritable, IsWritableInterface, IsWritablePort};

use crate::list::Writer;
use crate::members::{with, with_text};
use graph_format::FilePort;
use param_expr::{Expr, Name, Parsed, print};
use pisdf_model::{Interface, Port};
use serde_json::{Map, Value};
use std::alloc::{AllocError, Global};

/// An expression over parameters of these names.
pub(crate) fn expression(alloc: Global, names: &[Name], expr: &Expr) -> Result<Value, AllocError>
    requires { IsWritable names.now expr.now }
    ensures { IfOk result (λ v. view v ≡ expression_value (with_names names.now expr.now)) }
{
    let text = print(alloc, expr, names)?;
    Ok(Value::String(text))
}

/// A name with a rate.
#[tactic(auto, unfolding(graph_format::specs::Canonical::port_value))]
fn rated(alloc: Global, names: &[Name], name: &Name, rate: &Expr) -> Result<Value, AllocError>
    requires { IsWritable names.now rate.now }
    ensures { IfOk result (λ v. view v ≡ port_value (record { name = name.now; rate = with_names names.now rate.now })) }
{
    let rate = expression(alloc, names, rate)?;
    let members = with(alloc, Map::new(alloc), "rate", rate)?;
    let members = with_text(alloc, members, "name", name.text())?;
    Ok(Value::Object(members))
}

/// Writes expressions over parameters of these names.
#[derive(Clone, Copy)]
pub(crate) struct Expressions<'a> {
    pub(crate) names: &'a [Name],
}

impl Writer for Expressions<'_> {
    type Part = Expr;

    type Stated = Parsed;

    ghost IsWritable = { λ w expr. IsWritable w.names.now expr };

    ghost named = { λ w expr. with_names w.names.now expr };

    ghost shown = { λ w. expression_value };

    ghost IsKept = { λ part. Unit {0} };

    fn value(&self, alloc: Global, expr: &Expr) -> Result<Value, AllocError> {
        expression(alloc, self.names, expr)
    }
}

/// Writes interfaces of a graph whose parameters have these names.
#[derive(Clone, Copy)]
pub(crate) struct Interfaces<'a> {
    pub(crate) names: &'a [Name],
}

impl Writer for Interfaces<'_> {
    type Part = Interface;

    type Stated = FilePort;

    ghost IsWritable = { λ w interface. IsWritableInterface w.names.now interface };

    ghost named = { λ w interface. named_interface w.names.now interface };

    ghost shown = { λ w. port_value };

    ghost IsKept = { λ part. Unit {0} };

    fn value(&self, alloc: Global, interface: &Interface) -> Result<Value, AllocError> {
        rated(alloc, self.names, &interface.name, &interface.rate)
    }
}

/// Writes ports of actors of a graph whose parameters have these names.
#[derive(Clone, Copy)]
pub(crate) struct Ports<'a> {
    pub(crate) names: &'a [Name],
}

impl Writer for Ports<'_> {
    type Part = Port;

    type Stated = FilePort;

    ghost IsWritable = { λ w port. IsWritablePort w.names.now port };

    ghost named = { λ w port. named_port w.names.now port };

    ghost shown = { λ w. port_value };

    ghost IsKept = { λ part. Unit {0} };

    fn value(&self, alloc: Global, port: &Port) -> Result<Value, AllocError> {
        rated(alloc, self.names, &port.name, &port.rate)
    }
}

/// Writes inputs of configuration actors, which have names alone.
#[derive(Clone, Copy)]
pub(crate) struct Inputs;

impl Writer for Inputs {
    type Part = Name;

    type Stated = Name;

    ghost IsWritable = { λ w name. Unit {0} };

    ghost named = { λ w name. name };

    ghost shown = { λ w. input_value };

    ghost IsKept = { λ part. Unit {0} };

    #[tactic(auto, unfolding(graph_format::specs::Canonical::input_value))]
    fn value(&self, alloc: Global, name: &Name) -> Result<Value, AllocError> {
        let members = with_text(alloc, Map::new(alloc), "name", name.text())?;
        Ok(Value::Object(members))
    }
}
