// Expressions, ports, interfaces and parameters, with places for names.
ghost use Rattle.std.specs.Prelude.{◌≡◌};
ghost use Rattle.graph_format.specs.Placed.{first_place};
ghost use Rattle.graph_format.specs.References.{missing};
ghost use Rattle.graph_reader.specs.Resolves.{Resolves};

use crate::names::Names;
use crate::resolved::Resolved;
use crate::surroundings::Surroundings;
use graph_format::{FileParam, FileParamKind, FilePort};
use param_expr::{BindFault, Expr, Name, Parsed, bind_in};
use pisdf_model::{DetailFault, Interface, Param, ParamKind, Port};
use std::alloc::Global;

/// The first place of a name, which has to be there.
pub(crate) fn reference(names: &Names<'_>, name: &Name) -> Result<u32, DetailFault<Name>>
    ensures { Resolves (missing names.now name.now) (first_place names.now name.now) result }
{
    match names.place_of(name) {
        Some(place) => Ok(place),
        None => Err(DetailFault::Fault(name.clone()?)),
    }
}

/// The place of a parameter.
impl Resolved for u32 {
    type Source = Name;

    ghost use Rattle.graph_format.specs.Placed.{first_place};
    ghost use Rattle.graph_format.specs.References.{missing};

    ghost unknown = { λ s name. missing s.scope.params name };

    ghost placed = { λ s name. first_place s.scope.params name };

    fn resolve(
        _alloc: Global,
        surroundings: &Surroundings<'_, '_>,
        source: &Name,
    ) -> Result<u32, DetailFault<Name>> {
        reference(&surroundings.params, source)
    }
}

impl Resolved for Expr {
    type Source = Parsed;

    ghost use Rattle.param_expr.specs.Bind.{placed_in};
    ghost use Rattle.graph_format.specs.References.{unknown_in_expr};

    ghost unknown = { λ s expr. unknown_in_expr s.scope expr };

    ghost placed = { λ s expr. placed_in s.scope.params expr };

    fn resolve(
        alloc: Global,
        surroundings: &Surroundings<'_, '_>,
        source: &Parsed,
    ) -> Result<Expr, DetailFault<Name>> {
        match bind_in(alloc, source, &surroundings.params) {
            Ok(expr) => Ok(expr),
            Err(BindFault::Unknown(name)) => Err(DetailFault::Fault(name)),
            Err(BindFault::Memory) => Err(DetailFault::Memory),
        }
    }
}

impl Resolved for Port {
    type Source = FilePort;

    ghost use Rattle.graph_format.specs.Placed.{placed_port};
    ghost use Rattle.graph_format.specs.References.{unknown_in_port};

    ghost unknown = { λ s port. unknown_in_port s.scope port };

    ghost placed = { λ s port. placed_port s.scope port };

    fn resolve(
        alloc: Global,
        surroundings: &Surroundings<'_, '_>,
        source: &FilePort,
    ) -> Result<Port, DetailFault<Name>> {
        let rate = Expr::resolve(alloc, &*surroundings, &source.rate)?;
        let name = source.name.clone()?;
        Ok(Port { name, rate })
    }
}

impl Resolved for Interface {
    type Source = FilePort;

    ghost use Rattle.graph_format.specs.Placed.{placed_interface};
    ghost use Rattle.graph_format.specs.References.{unknown_in_port};

    ghost unknown = { λ s port. unknown_in_port s.scope port };

    ghost placed = { λ s port. placed_interface s.scope port };

    fn resolve(
        alloc: Global,
        surroundings: &Surroundings<'_, '_>,
        source: &FilePort,
    ) -> Result<Interface, DetailFault<Name>> {
        let rate = Expr::resolve(alloc, &*surroundings, &source.rate)?;
        let name = source.name.clone()?;
        Ok(Interface { name, rate })
    }
}

impl Resolved for ParamKind {
    type Source = FileParamKind;

    ghost use Rattle.graph_format.specs.Placed.{placed_kind};
    ghost use Rattle.graph_format.specs.References.{unknown_in_kind};

    ghost unknown = { λ s kind. unknown_in_kind s.scope kind };

    ghost placed = { λ s kind. placed_kind s.scope kind };

    fn resolve(
        alloc: Global,
        surroundings: &Surroundings<'_, '_>,
        source: &FileParamKind,
    ) -> Result<ParamKind, DetailFault<Name>> {
        match source {
            FileParamKind::Inherited => Ok(ParamKind::Inherited),
            FileParamKind::Derived(expr) => {
                let expr = Expr::resolve(alloc, &*surroundings, expr)?;
                Ok(ParamKind::Derived(expr))
            }
            FileParamKind::Chosen => Ok(ParamKind::Chosen),
        }
    }
}

impl Resolved for Param {
    type Source = FileParam;

    ghost use Rattle.graph_format.specs.Placed.{placed_param};
    ghost use Rattle.graph_format.specs.References.{unknown_in_param};

    ghost unknown = { λ s param. unknown_in_param s.scope param };

    ghost placed = { λ s param. placed_param s.scope param };

    fn resolve(
        alloc: Global,
        surroundings: &Surroundings<'_, '_>,
        source: &FileParam,
    ) -> Result<Param, DetailFault<Name>> {
        let kind = ParamKind::resolve(alloc, &*surroundings, &source.kind)?;
        let name = source.name.clone()?;
        Ok(Param {
            name,
            kind,
            low: source.low,
            high: source.high,
        })
    }
}
