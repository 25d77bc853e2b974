// The versions of the format.
ghost use Rattle.std.specs.Prelude.{◌≡◌, None, Some, is_none};
ghost use Rattle.serde_json.specs.View.{view};
ghost use Rattle.graph_format.specs.Objects.{has_exports, has_lives, stated_version};
ghost use Rattle.graph_format.specs.Reads.{other_version, version_of};

use serde_json::Value;

/// The version that a root states.
pub(crate) fn stated_version(value: &Value) -> Option<i64>
    ensures { result ≡ stated_version (view value.now) }
{
    value.get("pisdf").and_then(Value::as_i64)
}

fn is_version(version: i64) -> bool
    ensures { result ≡ is_none (other_version (Some version)) }
{
    1 <= version && version <= 3
}

/// The stated version, where it is none of the format's.
pub(crate) fn other_version(stated: Option<i64>) -> Option<i64>
    ensures { result ≡ other_version stated }
{
    match stated {
        Some(version) if !is_version(version) => Some(version),
        _ => None,
    }
}

/// The version whose form is asked for: the stated one, which is one of the format's.
pub(crate) fn version_of(stated: Option<i64>) -> u32
    requires { other_version stated ≡ None }
    ensures { result ≡ version_of stated }
{
    match stated {
        Some(version) => version as u32,
        None => 1,
    }
}

/// Whether FIFOs state the lives of their delays.
pub(crate) fn has_lives(version: u32) -> bool
    ensures { result ≡ has_lives version }
{
    version >= 2
}

/// Whether graphs have exports, and actors that set parameters to those of a child.
pub(crate) fn has_exports(version: u32) -> bool
    ensures { result ≡ has_exports version }
{
    version >= 3
}
