// Objects, whose members are put to them one after the other. Each call takes the members so far and gives them back with one more, so that
// few values are held at once. The members are put from the last to the first in the order of their bytes: each stands before those that
// are there, and no other order of the file comes about by it.
ghost use Rattle.std.specs.Prelude.{◌≡◌, IfOk, OnOk, All, map};
ghost use Rattle.serde_json.specs.Data.{put as with_member, string};
ghost use Rattle.serde_json.specs.View.{members_view, view};
ghost use Rattle.graph_format.specs.Canonical.{list_value};

use crate::list::{Writer, list};
use serde_json::{Map, Value, put};
use std::alloc::{AllocError, Global};

/// The members of an object, by their names.
pub(crate) type Members = Map<String, Value>;

/// The members, with a value put to them.
pub(crate) fn with(
    alloc: Global,
    mut members: Members,
    name: &'static str,
    value: Value,
) -> Result<Members, AllocError>
    ensures { IfOk result (λ made. members_view made.entries ≡ with_member name.now (view value) (members_view members.entries)) }
{
    put(&mut members, alloc, name, value)?;
    Ok(members)
}

/// The members, with a text put to them.
pub(crate) fn with_text(
    alloc: Global,
    members: Members,
    name: &'static str,
    text: &str,
) -> Result<Members, AllocError>
    ensures { IfOk result (λ made. members_view made.entries ≡ with_member name.now (string text.now) (members_view members.entries)) }
{
    let value = Value::try_from_str(alloc, text)?;
    with(alloc, members, name, value)
}

/// The members, with the list of these parts put to them.
pub(crate) fn with_list<W: Writer>(
    alloc: Global,
    members: Members,
    name: &'static str,
    writer: &W,
    parts: &[W::Part],
) -> Result<Members, AllocError>
    requires { All (W.IsWritable writer.now) parts.now }
    ensures shown { IfOk result (λ made. members_view made.entries ≡ with_member name.now (list_value (W.shown writer.now) (map (W.named writer.now) parts.now)) (members_view members.entries)) }
    ensures kept { OnOk result (All W.IsKept parts.now) }
{
    let value = list(alloc, writer, parts)?;
    with(alloc, members, name, value)
}
