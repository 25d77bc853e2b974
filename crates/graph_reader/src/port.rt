ghost use Rattle.graph_format.specs.Objects.{input_at, port_at};

use crate::place::Place;
use crate::shape::{Form, has_form, member};
use crate::text::{Expression, PlainName};
use graph_format::FilePort;
use param_expr::Name;
use pisdf_model::DetailFault;
use serde_json::Value;
use std::alloc::Global;

/// An interface or a port.
pub(crate) struct Port;

impl Form for Port {
    type Stated = FilePort;

    ghost reads = { λ _. port_at };

    #[tactic(auto, unfolding(graph_format::specs::Objects::port_at, graph_format::specs::Objects::port_members_at))]
    fn read_at(
        &self,
        alloc: Global,
        place: &Place<'_>,
        value: &Value,
    ) -> Result<FilePort, DetailFault<Name>> {
        if !has_form(value, &["name", "rate"], &[]) {
            return Err(place.misshapen(alloc));
        }
        let name = member(alloc, place, value, "name", &PlainName)?;
        let rate = member(alloc, place, value, "rate", &Expression)?;
        Ok(FilePort { name, rate })
    }
}

/// An input of a configuration actor, which has a name alone.
pub(crate) struct Input;

impl Form for Input {
    type Stated = Name;

    ghost reads = { λ _. input_at };

    #[tactic(auto, unfolding(graph_format::specs::Objects::input_at))]
    fn read_at(
        &self,
        alloc: Global,
        place: &Place<'_>,
        value: &Value,
    ) -> Result<Name, DetailFault<Name>> {
        if !has_form(value, &["name"], &[]) {
            return Err(place.misshapen(alloc));
        }
        member(alloc, place, value, "name", &PlainName)
    }
}
