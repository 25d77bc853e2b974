ghost use Rattle.std.specs.Prelude.{◌≡◌, IfOk, List as Seq, map};
ghost use Rattle.kernel_gate.specs.Signed.{signature_view};
ghost use Rattle.param_expr.specs.Bind.{place_of};
ghost use Rattle.graph_format.specs.declared.file.FileGraph.{FileGraph};
ghost use Rattle.graph_format.specs.Kernels.{kernel_names};
ghost use Rattle.graph_format.specs.KnownNames.{interfaces_of, names_at, ports_of};
ghost use Rattle.graph_reader.specs.Setting.{AreOf, lent_names, ports_view};

use crate::names::{Names, names_of, names_of_both};
use crate::surroundings::Ports;
use graph_format::{FileBody, FileGraph};
use kernel_gate::Signature;
use param_expr::Name;
use sdf_level::List;
use std::alloc::{AllocError, Global};

/// The names that the parts of all graphs of a file can refer to.
#[derive(Drop)]
pub(crate) struct FileNames<'a> {
    pub(crate) kernels: Names<'a>,
    pub(crate) graphs: Names<'a>,
    /// For each graph, its inputs, then its outputs.
    pub(crate) interfaces: List<Names<'a>>,
}

/// The names of the kernels.
fn names_of_kernels<'a>(alloc: Global, signatures: &'a [Signature]) -> Result<Names<'a>, AllocError>
    ensures { IfOk result (λ names. names ≡ kernel_names (map signature_view signatures.now)) }
{
    let mut names = Vec::new(alloc);
    for signature in signatures {
        names.push(signature.name)?;
    }
    Names::new(alloc, names)
}

/// A graph's inputs, then its outputs.
fn interfaces_of<'a>(alloc: Global, graph: &'a FileGraph) -> Result<Names<'a>, AllocError>
    ensures { IfOk result (λ names. names ≡ interfaces_of graph.now) }
{
    names_of_both(alloc, graph.inputs.items(), graph.outputs.items())
}

/// The interfaces of each graph.
fn all_interfaces<'a>(alloc: Global, graphs: &'a [FileGraph]) -> Result<List<Names<'a>>, AllocError>
    ensures { IfOk result (λ all. all ≡ map interfaces_of graphs.now) }
{
    let mut all = Vec::new(alloc);
    for graph in graphs {
        let one = interfaces_of(alloc, graph)?;
        all.push(one)?;
    }
    Ok(List::new(all))
}

impl<'a> FileNames<'a> {
    /// The names of these kernels and graphs.
    pub(crate) fn new(
        alloc: Global,
        signatures: &'a [Signature],
        graphs: &'a [FileGraph],
    ) -> Result<FileNames<'a>, AllocError>
        ensures kernels { IfOk result (λ names. names.kernels ≡ kernel_names (map signature_view signatures.now)) }
        ensures graphs { IfOk result (λ names. AreOf graphs.now names) }
    {
        let kernels = names_of_kernels(alloc, signatures)?;
        let interfaces = all_interfaces(alloc, graphs)?;
        let graphs = names_of(alloc, graphs)?;
        Ok(FileNames {
            kernels,
            graphs,
            interfaces,
        })
    }

    /// The interfaces of the first graph of that name.
    fn interfaces_named<'b>(&'b self, name: &Name) -> Option<&'b Names<'a>>
        ensures { lent_names result ≡ names_at self.now.interfaces (place_of self.now.graphs name.now) }
    {
        let place = self.graphs.place_of(name)?;
        self.interfaces.items().get(place as usize)
    }

    /// The ports of an actor whose child is the first graph of that name.
    fn ports_of_child<'b>(
        &'b self,
        alloc: Global,
        graph: &Name,
    ) -> Result<Ports<'b, 'a>, AllocError>
        ensures { IfOk result (λ ports. ports_view ports ≡ names_at self.now.interfaces (place_of self.now.graphs graph.now)) }
    {
        match self.interfaces_named(graph) {
            Some(interfaces) => Ok(Ports::Child(interfaces)),
            None => {
                let none = Names::new(alloc, Vec::new(alloc))?;
                Ok(Ports::Own(none))
            }
        }
    }

    /// The ports of an actor.
    pub(crate) fn ports_of<'b>(
        &'b self,
        alloc: Global,
        body: &'a FileBody,
    ) -> Result<Ports<'b, 'a>, AllocError>
        ensures { (graphs : Seq FileGraph) → AreOf graphs self.now → IfOk result (λ ports. ports_view ports ≡ ports_of graphs body.now) }
    {
        match body {
            FileBody::Kernel { ins, outs, .. } => {
                let names = names_of_both(alloc, ins.items(), outs.items())?;
                Ok(Ports::Own(names))
            }
            FileBody::Config { ins, outs, .. } => {
                let names = names_of_both(alloc, ins.items(), outs.items())?;
                Ok(Ports::Own(names))
            }
            FileBody::Child { graph, .. } => self.ports_of_child(alloc, graph),
            FileBody::ConfigChild { graph, .. } => self.ports_of_child(alloc, graph),
        }
    }
}
