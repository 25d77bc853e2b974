ghost use Rattle.std.specs.Prelude.{◌≡◌, []};
ghost use Rattle.serde_json.specs.View.{view};
ghost use Rattle.graph_format.specs.Walk.{has_form};
ghost use Rattle.graph_format.specs.Objects.{exports_at, file_at, graph_at, graph_keys, graph_parts_at, version_at};
ghost use Rattle.graph_reader.specs.Place.{pointer_of};
ghost use Rattle.graph_reader.specs.Gives.{Gives};

use crate::actor::Actor;
use crate::fifo::Fifo;
use crate::param::Param;
use crate::place::Place;
use crate::port::Port;
use crate::shape::{Form, has_form, list_member, member};
use crate::text::PlainName;
use crate::versions::has_exports;
use graph_format::{File, FileGraph, FileParam};
use param_expr::Name;
use pisdf_model::DetailFault;
use sdf_level::List;
use serde_json::Value;
use std::alloc::Global;

/// The names of the parameters that a graph exports, in a version of the format that has exports.
fn exports(
    alloc: Global,
    place: &Place<'_>,
    value: &Value,
    version: u32,
) -> Result<List<Name>, DetailFault<Name>>
    ensures { Gives result (exports_at version (pointer_of place.now) (view value.now)) }
{
    if !has_exports(version) {
        return Ok(List::new(Vec::new(alloc)));
    }
    list_member(alloc, place, value, "exports", &PlainName)
}

/// A graph of this name and these parameters, with its interfaces, actors, FIFOs and exports.
#[tactic(auto, unfolding(graph_format::specs::Objects::graph_parts_at))]
fn graph_parts(
    alloc: Global,
    place: &Place<'_>,
    value: &Value,
    version: u32,
    name: Name,
    params: List<FileParam>,
) -> Result<FileGraph, DetailFault<Name>>
    ensures { Gives result (graph_parts_at version name params (pointer_of place.now) (view value.now)) }
{
    let inputs = list_member(alloc, place, value, "inputs", &Port)?;
    let outputs = list_member(alloc, place, value, "outputs", &Port)?;
    let actors = list_member(alloc, place, value, "actors", &Actor { version })?;
    let fifos = list_member(alloc, place, value, "fifos", &Fifo { version })?;
    let exports = exports(alloc, place, value, version)?;
    Ok(FileGraph {
        name,
        params,
        inputs,
        outputs,
        actors,
        fifos,
        exports,
    })
}

/// Whether a value has the members of a graph in this version of the format, and no others.
fn has_graph_form(version: u32, value: &Value) -> bool
    ensures { result ≡ has_form (graph_keys version) [] (view value.now) }
{
    if has_exports(version) {
        has_form(
            value,
            &[
                "name", "params", "inputs", "outputs", "actors", "fifos", "exports",
            ],
            &[],
        )
    } else {
        has_form(
            value,
            &["name", "params", "inputs", "outputs", "actors", "fifos"],
            &[],
        )
    }
}

/// A graph in this version of the format.
#[derive(Clone, Copy)]
struct Graph {
    version: u32,
}

impl Form for Graph {
    type Stated = FileGraph;

    ghost reads = { λ graph. graph_at graph.version };

    #[tactic(auto, unfolding(graph_format::specs::Objects::graph_at, graph_format::specs::Objects::graph_members_at))]
    fn read_at(
        &self,
        alloc: Global,
        place: &Place<'_>,
        value: &Value,
    ) -> Result<FileGraph, DetailFault<Name>> {
        if !has_graph_form(self.version, value) {
            return Err(place.misshapen(alloc));
        }
        let name = member(alloc, place, value, "name", &PlainName)?;
        let params = list_member(alloc, place, value, "params", &Param)?;
        graph_parts(alloc, place, value, self.version, name, params)
    }
}

/// The number of this version.
#[derive(Clone, Copy)]
struct Version {
    version: u32,
}

impl Form for Version {
    type Stated = u32;

    ghost reads = { λ stated. version_at stated.version };

    fn read_at(
        &self,
        alloc: Global,
        place: &Place<'_>,
        value: &Value,
    ) -> Result<u32, DetailFault<Name>> {
        match value.as_i64() {
            Some(number) if number == i64::from(self.version) => Ok(self.version),
            _ => Err(place.misshapen(alloc)),
        }
    }
}

/// The root of a graph file in this version of the format.
#[derive(Clone, Copy)]
pub(crate) struct Root {
    pub(crate) version: u32,
}

impl Form for Root {
    type Stated = File;

    ghost reads = { λ root. file_at root.version };

    #[tactic(auto, unfolding(graph_format::specs::Objects::file_at, graph_format::specs::Objects::file_members_at))]
    fn read_at(
        &self,
        alloc: Global,
        place: &Place<'_>,
        value: &Value,
    ) -> Result<File, DetailFault<Name>> {
        if !has_form(value, &["pisdf", "top", "graphs"], &[]) {
            return Err(place.misshapen(alloc));
        }
        let version = member(
            alloc,
            place,
            value,
            "pisdf",
            &Version {
                version: self.version,
            },
        )?;
        let top = member(alloc, place, value, "top", &PlainName)?;
        let graphs = list_member(
            alloc,
            place,
            value,
            "graphs",
            &Graph {
                version: self.version,
            },
        )?;
        Ok(File {
            version,
            top,
            graphs,
        })
    }
}
