ghost use Rattle.std.specs.Prelude.{◌≡◌, IfOk, OnOk, All, map};
ghost use Rattle.serde_json.specs.Data.{Data};
ghost use Rattle.serde_json.specs.View.{view};
ghost use Rattle.graph_format.specs.Canonical.{list_value};

use serde_json::Value;
use std::alloc::{AllocError, Global};

/// What writes the parts of one kind.
pub(crate) trait Writer {
    /// A part, which refers to others by places.
    type Part;

    /// What a file states for it.
    type Stated;

    /// What a part has to meet.
    ghost IsWritable: { Self → Self.Part → Type 0 };

    ghost named: { Self → Self.Part → Self.Stated };

    ghost shown: { Self → Self.Stated → Data };

    /// What is known of a part that was written.
    ghost IsKept: { Self.Part → Type 0 };

    /// The JSON value of a part.
    fn value(&self, alloc: Global, part: &Self::Part) -> Result<Value, AllocError>
        requires { IsWritable self.now part.now }
        ensures shown { IfOk result (λ v. view v ≡ shown self.now (named self.now part.now)) }
        ensures kept { OnOk result (IsKept part.now) };
}

/// The JSON values of parts, as a list.
pub(crate) fn list<W: Writer>(
    alloc: Global,
    writer: &W,
    parts: &[W::Part],
) -> Result<Value, AllocError>
    requires { All (W.IsWritable writer.now) parts.now }
    ensures shown { IfOk result (λ v. view v ≡ list_value (W.shown writer.now) (map (W.named writer.now) parts.now)) }
    ensures kept { OnOk result (All W.IsKept parts.now) }
{
    let mut values = Vec::new(alloc);
    for part in parts {
        let value = writer.value(alloc, part)?;
        values.push(value)?;
    }
    Ok(Value::Array(values))
}
