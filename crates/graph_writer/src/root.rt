ghost use Rattle.std.specs.Prelude.{◌≡◌, Some, Ok, IfOk, OnOk, All, List as Seq, ℕ, map};
ghost use Rattle.serde_json.specs.Read.{read};
ghost use Rattle.serde_json.specs.View.{view};
ghost use Rattle.serde_json.specs.Written.{compact_text};
ghost use Rattle.kernel_gate.specs.Signed.{signature_view};
ghost use Rattle.graph_format.specs.Canonical.{canonical};
ghost use Rattle.graph_format.specs.Kernels.{kernel_names};
ghost use Rattle.graph_format.specs.Reads.{Reads};
ghost use Rattle.graph_writer.specs.ReadAgain.{CanBeReadAgain, HasI64Tokens, WasRead};
ghost use Rattle.graph_format.specs.Writable.{IsWritableGraph};

use crate::graph::GraphList;
use crate::members::{with, with_list, with_text};
use crate::names::graph_name;
use kernel_gate::Signature;
use pisdf_model::Graphs;
use serde_json::{Map, Value};
use std::alloc::{AllocError, Global};

/// The canonical value of graphs.
#[tactic(auto, unfolding(graph_format::specs::Canonical::file_value, graph_format::specs::Named::named_file))]
fn root(alloc: Global, graphs: &Graphs, signatures: &[Signature]) -> Result<Value, AllocError>
    requires { All IsWritableGraph graphs.now.graphs }
    ensures canonical { IfOk result (λ v. view v ≡ canonical (kernel_names (map signature_view signatures.now)) graphs.now) }
    ensures tokens { OnOk result (All HasI64Tokens graphs.now.graphs) }
{
    let top = graph_name(graphs, graphs.top);
    let list_of_graphs = GraphList { signatures, graphs };
    let members = with_text(alloc, Map::new(alloc), "top", top)?;
    let members = with(alloc, members, "pisdf", Value::from(graphs.version))?;
    let members = with_list(
        alloc,
        members,
        "graphs",
        &list_of_graphs,
        graphs.graphs.items(),
    )?;
    Ok(Value::Object(members))
}

/// The canonical graph file: compact JSON, members in the order of their bytes. Each place is replaced by the name
/// that stands there, a kernel's place by the name of its signature. A parameter's `low` and `high` always stand there;
/// `delay` is left out where it is empty, a number where all its tokens are 0, and a list else; in versions 2 and 3 `life`
/// stands there exactly where `delay` does, and `exports` stand in version 3. Expressions are printed
/// with the fewest parentheses. The file is read as these graphs again, where a file can state them, they have no fault,
/// and no two signatures have one name.
///
/// In each expression, parameters are places of names, and numbers are at least 0 (`writable`). Where a place names no
/// part, the empty text is written.
///
/// # Errors
///
/// Want of memory.
#[tactic(auto, using(crate::proofs::Floats::no_float, crate::proofs::Depths::nests_little, crate::proofs::WrittenFile::read_again, crate::proofs::WrittenFile::read_rewritten))]
pub fn write(
    alloc: Global,
    graphs: &Graphs,
    signatures: &[Signature],
) -> Result<Vec<u8>, AllocError>
    requires writable { All IsWritableGraph graphs.now.graphs }
    ensures canonical { IfOk result (λ bytes. bytes.items ≡ compact_text (canonical (kernel_names (map signature_view signatures.now)) graphs.now)) }
    // Read as JSON, it is that value again.
    ensures reads { IfOk result (λ bytes. read bytes.items ≡ Some (canonical (kernel_names (map signature_view signatures.now)) graphs.now)) }
    // Graphs that a file can state, and that have no fault, are read from it again where no two signatures have one name.
    ensures again { CanBeReadAgain (map signature_view signatures.now) graphs.now → IfOk result (λ bytes. Reads (map signature_view signatures.now) bytes.items (Ok graphs.now)) }
    // So are graphs that were read.
    ensures rewritten { (before : Seq ℕ) → WasRead (map signature_view signatures.now) before graphs.now → IfOk result (λ bytes. Reads (map signature_view signatures.now) bytes.items (Ok graphs.now)) }
{
    root(alloc, graphs, signatures)?.to_vec(alloc)
}
