// The command that writes a graph file anew.
ghost use Rattle.std.specs.Prelude.{◌≡◌, ◌≢◌, Err, Some, map, IfErr, IfOk};
ghost use Rattle.kernel_gate.specs.Signed.{signature_view};
ghost use Rattle.kernel_gate.specs.Table.{the_signatures};
ghost use Rattle.pisdf_program.specs.Loaded.{AreGood};
ghost use Rattle.pisdf_program.specs.Result.{IsTold, Upgrades, file_of, latest};
ghost use Rattle.pisdf_program.specs.Words as table;
ghost use Rattle.pisdf_program.specs.Worked.{CountRose, IsThere, Works};

use crate::load::load_graphs;
use crate::status::Status;
use graph_writer::write;
use kernel_gate::{Gate, Signature};
use outer_world::{Shelf, Sink, put_text};
use pisdf_model::Graphs;
use std::alloc::{AllocError, Global};

/// The graphs as those of version 2, where their version is 1.
fn latest(graphs: Graphs) -> Graphs
    ensures latest { result ≡ latest graphs }
    ensures kept { result.graphs ≡ graphs.graphs }
{
    if graphs.version == 1 {
        Graphs {
            version: 2,
            top: graphs.top,
            graphs: graphs.graphs,
        }
    } else {
        graphs
    }
}

/// The canonical file of graphs, as that of version 2 where their version is 1.
fn file_of(alloc: Global, graphs: Graphs, signatures: &[Signature]) -> Result<Vec<u8>, AllocError>
    requires kernels { map signature_view signatures.now ≡ the_signatures }
    requires good { AreGood graphs }
    ensures { IfOk result (λ text. text.items ≡ file_of (latest graphs)) }
{
    write(alloc, &latest(graphs), signatures)
}

/// Puts the canonical file of the graphs in a file, in one put. The answer is no text for standard error, or a status.
pub(crate) fn upgrade<S: Shelf, O: Sink, K: Gate>(
    alloc: Global,
    graph: &str,
    shelf: &mut S,
    out: &mut O,
    gate: &K,
) -> Result<String, Status>
    requires kernels { K.kernels gate.now ≡ the_signatures }
    ensures works { Works (Upgrades (S.holds shelf.old graph.now)) (O.written out.old) (O.written out.new) (O.faults out.old) (O.faults out.new) result }
    ensures there { IsThere (IsTold (S.holds shelf.old graph.now)) (Upgrades (S.holds shelf.old graph.now)) result }
    ensures read { IfErr result (CountRose (Some (table.Upgrade graph.now)) (S.faults shelf.old) (S.faults shelf.new)) }
    ensures usage { result ≢ Err Status.Usage }
{
    let graphs = match load_graphs(alloc, shelf, graph, gate.signatures()) {
        Ok(graphs) => graphs,
        Err(status) => return Err(status),
    };
    let Ok(text) = file_of(alloc, graphs, gate.signatures()) else {
        return Err(Status::WantOfMemory);
    };
    match put_text(out, text.as_slice()) {
        Ok(()) => Ok(String::new(alloc)),
        Err(_) => Err(Status::WriteFault),
    }
}
