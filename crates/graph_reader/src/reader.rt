ghost use Rattle.std.specs.Prelude.{◌≡◌, IfErr, IfOk, All, map};
ghost use Rattle.serde_json.specs.Data.{Data};
ghost use Rattle.kernel_gate.specs.Signed.{signature_view};
ghost use Rattle.pisdf_model.specs.Range.{InRange};
ghost use Rattle.pisdf_model.specs.Valid.{AreNamed};
ghost use Rattle.pisdf_model.specs.WellFormed.{WellFormed};
ghost use Rattle.pisdf_model.specs.Names.{repeats};
ghost use Rattle.graph_format.specs.Faults.{Tells, file_faults, graphs_of};
ghost use Rattle.graph_format.specs.FileNames.{names_of_file};
ghost use Rattle.graph_format.specs.Kernels.{kernel_names};
ghost use Rattle.graph_format.specs.Means.{Means};
ghost use Rattle.graph_format.specs.Placed.{placed};
ghost use Rattle.graph_format.specs.Reads.{IsJson, Reads, TellsShape};
ghost use Rattle.graph_format.specs.References.{unknown_in_file};
ghost use Rattle.graph_format.specs.States.{States};
ghost use Rattle.graph_format.specs.Versions.{IsOfVersion};
ghost use Rattle.graph_format.specs.Writable.{IsWritableGraph};
ghost use Rattle.graph_format.specs.declared.file.File.{File};
ghost use Rattle.graph_format.specs.declared.graph_fault.GraphFault.TheVariants.{Duplicate, Unknown};
ghost use Rattle.graph_reader.specs.Setting.{delays_by};

use crate::checks::{Check, follow_rules, told_count, told_kernel};
use crate::file_counts::count;
use crate::kernels::unfit_kernel;
use crate::resolved_graphs::graphs_of;
use crate::scoped_names::names_of_file;
use crate::stated_file::file_of_bytes;
use crate::surroundings::Delays;
use graph_format::{File, GraphFault};
use kernel_gate::Signature;
use pisdf_model::{Graphs, repeat};
use std::alloc::Global;

fn no_duplicate(alloc: Global, file: &File) -> Result<(), GraphFault>
    ensures { Tells (map Duplicate (repeats (names_of_file file.now))) result }
{
    match names_of_file(alloc, file) {
        Ok(names) => Check::Duplicate.told(repeat(alloc, names.as_slice())),
        Err(_) => Err(GraphFault::Memory),
    }
}

/// The graphs of a file whose references are known, with its delays as they are or marked.
fn resolved(
    alloc: Global,
    file: &File,
    signatures: &[Signature],
    delays: Delays,
) -> Result<Graphs, GraphFault>
    ensures tells { Tells (map Unknown (unknown_in_file file.now)) result }
    ensures graphs { IfOk result (λ graphs. graphs ≡ placed (delays_by delays) (kernel_names (map signature_view signatures.now)) file.now) }
{
    match graphs_of(alloc, file, signatures, delays) {
        Ok(graphs) => Ok(graphs),
        Err(fault) => Err(Check::Unknown.fault(fault)),
    }
}

/// Whether a file has none of the faults 4 to 13. Delays are marked for that, and not made: they may hold far more tokens
/// than their limit, or than there is memory for.
fn check(alloc: Global, file: &File, signatures: &[Signature]) -> Result<(), GraphFault>
    requires { IsOfVersion file.now }
    ensures { Tells (file_faults (map signature_view signatures.now) file.now) result }
{
    no_duplicate(alloc, file)?;
    let marked = resolved(alloc, file, signatures, Delays::Marks)?;
    told_kernel(unfit_kernel(signatures, file))?;
    follow_rules(alloc, signatures, &marked)?;
    told_count(alloc, count(alloc, file, &marked))
}

/// The graphs that a file means.
fn graphs_of_file(
    alloc: Global,
    file: &File,
    signatures: &[Signature],
) -> Result<Graphs, GraphFault>
    requires { IsOfVersion file.now }
    ensures tells { Tells (file_faults (map signature_view signatures.now) file.now) result }
    ensures graphs { IfOk result (λ graphs. graphs ≡ graphs_of (map signature_view signatures.now) file.now) }
{
    check(alloc, file, signatures)?;
    resolved(alloc, file, signatures, Delays::Tokens)
}

/// What the bytes of a graph file are read as.
fn graphs_of_bytes(
    alloc: Global,
    bytes: &[u8],
    signatures: &[Signature],
) -> Result<Graphs, GraphFault>
    ensures { Reads (map signature_view signatures.now) bytes.now result }
{
    let file = file_of_bytes(alloc, bytes)?;
    graphs_of_file(alloc, &file, signatures)
}

/// The graphs that the bytes of a graph file mean, where kernels are places of these signatures.
///
/// # Errors
///
/// The first of these, in this order:
///
/// - `NotJson`: `serde_json` has no reading of the bytes.
/// - `Shape`: the first value in the walk that has not the form of the file's version, unless that is none of the format's.
/// - `Version`: the root is an object whose `pisdf` is a whole number other than 1, 2 and 3.
/// - `Duplicate`: the first name in the walk that is equal to an earlier one of its scope.
/// - `Unknown`: the first reference in the walk that names nothing of the kind that its place asks for.
/// - `Kernel`: the first kernel of an actor that has no signature, or whose first signature is of the other kind.
/// - `Ports`: graph by graph, the first actor whose numbers of arguments, ports or sets don't fit its kernel or its child,
///   then the first parameter that isn't set as its kind says.
/// - `Wire`: graph by graph, the first end of a FIFO at which tokens run the wrong way, then the first interface or port
///   that doesn't stand at one FIFO end.
/// - `InterfaceWire`: the first FIFO that may not be where it is, at interfaces or at a configuration actor.
/// - `ParamOrder`: graph by graph, the first parameter that depends on itself, then the first late one that is named
///   where an early one must be.
/// - `GraphCycle`: the first graph that holds itself.
/// - `Depth`: the first graph that is nested too deep.
/// - `Count`: the first of what there are too many of: graphs, then graph by graph its parts, and the tokens that go on
///   over the firings of a graph that an actor names.
/// - `Memory`: want of memory, at any time.
pub fn read(alloc: Global, bytes: &[u8], signatures: &[Signature]) -> Result<Graphs, GraphFault>
    // What is read is what a value states and means.
    ensures means { IfOk result (λ graphs. (d : Data) × IsJson bytes.now d × ((file : File) × States d file × Means (map signature_view signatures.now) file graphs)) }
    ensures in_range { IfOk result (λ graphs. InRange graphs) }
    ensures well_formed { IfOk result (λ graphs. WellFormed graphs) }
    ensures named { IfOk result (λ graphs. AreNamed graphs) }
    ensures writable { IfOk result (λ graphs. All IsWritableGraph graphs.graphs) }
    // What is stated is read where it has no fault, and else its first fault is answered, unless memory runs out.
    ensures stated { (d : Data) (file : File) → IsJson bytes.now d → States d file
        → Tells (file_faults (map signature_view signatures.now) file) result × IfOk result (λ graphs. graphs ≡ graphs_of (map signature_view signatures.now) file) }
    // A fault of shape stands at a value that has not its form, and every value before it in the walk has.
    ensures shape { IfErr result (λ fault. TellsShape bytes.now fault) }
    // Which answer it is for any bytes.
    ensures exact { Reads (map signature_view signatures.now) bytes.now result }
{
    graphs_of_bytes(alloc, bytes, signatures)
}
