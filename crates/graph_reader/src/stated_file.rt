ghost use Rattle.std.specs.Prelude.{◌≡◌, ◌⊎◌, IfErr, IfOk, Err, List as Seq};
ghost use Rattle.serde_json.specs.Data.{Data};
ghost use Rattle.serde_json.specs.View.{view};
ghost use Rattle.kernel_gate.specs.Signed.{SignatureView};
ghost use Rattle.graph_format.specs.Reads.{IsJson, Reads, reading};
ghost use Rattle.graph_format.specs.States.{States};
ghost use Rattle.graph_format.specs.declared.graph_fault.GraphFault.TheVariants.{Memory};

use crate::checks::Check;
use crate::place::Place;
use crate::root::Root;
use crate::shape::Form;
use crate::versions::{other_version, stated_version, version_of};
use graph_format::{File, GraphFault};
use serde_json::Value;
use std::alloc::Global;

/// The file that a JSON value states, or its fault.
fn file_of_value(alloc: Global, value: &Value) -> Result<File, GraphFault>
    ensures stated { IfOk result (λ file. States (view value.now) file) }
    ensures refused { (signatures : Seq SignatureView) → IfErr result (λ fault. (fault ≡ Memory) ⊎ (reading signatures (view value.now) ≡ Err fault)) }
{
    let stated = stated_version(value);
    if let Some(version) = other_version(stated) {
        return Err(GraphFault::Version(version));
    }
    let root = Root {
        version: version_of(stated),
    };
    match root.read_at(alloc, &Place::Root, value) {
        Ok(file) => Ok(file),
        Err(fault) => Err(Check::Shape.fault(fault)),
    }
}

/// The file that bytes state, its names not yet resolved.
///
/// # Errors
///
/// - `NotJson`: `serde_json` has no reading of the bytes.
/// - `Shape`: the first value in the walk that has not the form of the file's version, unless that is none of the format's.
/// - `Version`: the root is an object whose `pisdf` is a whole number other than 1, 2 and 3.
/// - `Memory`: want of memory.
pub(crate) fn file_of_bytes(alloc: Global, bytes: &[u8]) -> Result<File, GraphFault>
    ensures stated { IfOk result (λ file. (d : Data) × IsJson bytes.now d × States d file) }
    // The kernels play no part in these faults.
    ensures refused { (signatures : Seq SignatureView) → IfErr result (λ fault. Reads signatures bytes.now (Err fault)) }
{
    let value = match Value::from_slice(alloc, bytes) {
        Ok(value) => value,
        Err(error) if error.is_memory() => return Err(GraphFault::Memory),
        Err(_) => return Err(GraphFault::NotJson),
    };
    file_of_value(alloc, &value)
}
