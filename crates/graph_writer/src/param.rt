ghost use Rattle.std.specs.Prelude.{◌≡◌, IfOk, codes};
ghost use Rattle.serde_json.specs.Data.{member, object, string};
ghost use Rattle.serde_json.specs.View.{members_view, view};
ghost use Rattle.graph_format.specs.Canonical.{param_members, param_value};
ghost use Rattle.graph_format.specs.Named.{name_at_place, named_param};
ghost use Rattle.graph_format.specs.Writable.{IsWritableParam};

use crate::list::Writer;
use crate::members::{Members, with, with_text};
use crate::names::name_at;
use crate::port::expression;
use graph_format::FileParam;
use param_expr::Name;
use pisdf_model::{Param, ParamKind};
use serde_json::{Map, Value};
use std::alloc::{AllocError, Global};

/// The members of each parameter.
fn members_of(
    alloc: Global,
    name: &str,
    kind: &'static str,
    low: i64,
    high: i64,
) -> Result<Members, AllocError>
    ensures { IfOk result (λ members. members_view members.entries ≡ param_members name.now kind.now low high) }
{
    let members = with_text(alloc, Map::new(alloc), "name", name)?;
    let members = with(alloc, members, "low", Value::from(low))?;
    let members = with_text(alloc, members, "kind", kind)?;
    with(alloc, members, "high", Value::from(high))
}

/// A parameter without an expression.
fn given(
    alloc: Global,
    name: &str,
    kind: &'static str,
    low: i64,
    high: i64,
) -> Result<Value, AllocError>
    ensures { IfOk result (λ v. view v ≡ object (param_members name.now kind.now low high)) }
{
    Ok(Value::Object(members_of(alloc, name, kind, low, high)?))
}

/// A derived parameter.
fn derived(alloc: Global, name: &str, expr: Value, low: i64, high: i64) -> Result<Value, AllocError>
    ensures { IfOk result (λ v. view v ≡ object (member (codes "expr") (view expr) (param_members name.now (codes "is") low high))) }
{
    let members = members_of(alloc, name, "is", low, high)?;
    let members = with(alloc, members, "expr", expr)?;
    Ok(Value::Object(members))
}

/// Writes parameters of a graph whose parameters have these names.
#[derive(Clone, Copy)]
pub(crate) struct Params<'a> {
    pub(crate) names: &'a [Name],
}

impl Writer for Params<'_> {
    type Part = Param;

    type Stated = FileParam;

    ghost IsWritable = { λ w param. IsWritableParam w.names.now param };

    ghost named = { λ w param. named_param w.names.now param };

    ghost shown = { λ w. param_value };

    ghost IsKept = { λ part. Unit {0} };

    #[tactic(auto, unfolding(graph_format::specs::Canonical::param_value))]
    fn value(&self, alloc: Global, param: &Param) -> Result<Value, AllocError> {
        let name = param.name.text();
        match &param.kind {
            ParamKind::Inherited => given(alloc, name, "in", param.low, param.high),
            ParamKind::Derived(expr) => {
                let expr = expression(alloc, self.names, expr)?;
                derived(alloc, name, expr, param.low, param.high)
            }
            ParamKind::Chosen => given(alloc, name, "set", param.low, param.high),
        }
    }
}

/// Writes the parameters that a configuration actor sets, or a graph exports, in a graph whose parameters have these names.
#[derive(Clone, Copy)]
pub(crate) struct Sets<'a> {
    pub(crate) names: &'a [Name],
}

impl Writer for Sets<'_> {
    type Part = u32;

    type Stated = Name;

    ghost IsWritable = { λ w place. Unit {0} };

    ghost named = { λ w place. name_at_place w.names.now place };

    ghost shown = { λ w. string };

    ghost IsKept = { λ part. Unit {0} };

    fn value(&self, alloc: Global, place: &u32) -> Result<Value, AllocError> {
        Value::try_from_str(alloc, name_at(self.names, *place))
    }
}
