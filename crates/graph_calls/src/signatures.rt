// The signatures that a row's file is read with.
use case_rows::{Trouble, word};
use kernel_gate::{Gate, Signature};
use kernel_library::Library;
use serde_json::Value;
use std::alloc::Global;

/// The names of some kernels.
const SOME: [&str; 9] = [
    "pass",
    "gain",
    "clamp",
    "add",
    "min",
    "ramp",
    "read_param",
    "pick",
    "spread",
];

/// The signature of the kernel of this name.
fn signature_of(name: &str) -> Result<Signature, Trouble> {
    for signature in Library.signatures() {
        if signature.name == name {
            return Ok(*signature);
        }
    }
    Err(Trouble::Member("signatures"))
}

/// The signatures of some kernels. The last is one of configuration actors, and has the name of the first.
fn some(alloc: Global) -> Result<Vec<Signature>, Trouble> {
    let mut last = signature_of(SOME[0])?;
    last.config = true;
    last.sets_min = 1;
    last.sets_max = 1;
    let mut some = Vec::new(alloc);
    for name in SOME {
        some.push(signature_of(name)?)?;
    }
    some.push(last)?;
    Ok(some)
}

/// The signatures of all kernels, or those that the row names: `some`.
pub(crate) fn signatures_of(alloc: Global, row: &Value) -> Result<Vec<Signature>, Trouble> {
    if row.get("signatures").is_none() {
        return Ok(Vec::from_slice(alloc, Library.signatures())?);
    }
    match word(row, "signatures")? {
        "some" => some(alloc),
        _ => Err(Trouble::Member("signatures")),
    }
}
