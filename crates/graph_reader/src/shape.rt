ghost use Rattle.std.specs.Prelude.{◌≡◌, ℕ, List as Seq, Result, map, option_and_then, is_some, ◌||◌};
ghost use Rattle.std.specs.List.{list_all, list_any};
ghost use Rattle.std.specs.Str.{bytes_eq};
ghost use Rattle.serde_json.specs.Data.{Data};
ghost use Rattle.serde_json.specs.Find.{get, as_str};
ghost use Rattle.serde_json.specs.View.{view, items_view, members_view};
ghost use Rattle.graph_format.specs.Walk.{all_known, has_form, items_at, list_at, member_at, member_or, says, whole_at, whole_of};
ghost use Rattle.graph_reader.specs.Place.{pointer_of};
ghost use Rattle.graph_reader.specs.Gives.{Gives};

use crate::place::Place;
use param_expr::Name;
use pisdf_model::DetailFault;
use sdf_level::List;
use serde_json::{Map, Value};
use std::alloc::Global;

/// A form that a JSON value may have.
pub(crate) trait Form {
    /// What a value of this form states.
    type Stated: Drop;

    /// What a value behind a pointer states, or the pointer to the first value in it that has not its form.
    ghost reads: { Self → Seq ℕ → Data → Result Self.Stated (Seq ℕ) };

    fn read_at(
        &self,
        alloc: Global,
        place: &Place<'_>,
        value: &Value,
    ) -> Result<Self::Stated, DetailFault<Name>>
        ensures { Gives result (reads self.now (pointer_of place.now) (view value.now)) };
}

fn is_among(names: &[&str], name: &str) -> bool
    ensures { result ≡ list_any (λ n. bytes_eq n.now name.now) names.now }
{
    names.iter().any(|known| *known == name)
}

fn is_known(known: &[&str], more: &[&str], name: &str) -> bool
    ensures { result ≡ (list_any (λ n. bytes_eq n.now name.now) known.now || list_any (λ n. bytes_eq n.now name.now) more.now) }
{
    is_among(known, name) || is_among(more, name)
}

/// Whether every member's name is one of these.
fn has_only(members: &Map<String, Value>, known: &[&str], more: &[&str]) -> bool
    ensures { result ≡ all_known (map (λ k. k.now) known.now) (map (λ k. k.now) more.now) (members_view members.now.entries) }
{
    members
        .keys()
        .all(|key| is_known(known, more, key.as_str()))
}

/// Whether a value has each of these members.
fn has_each(value: &Value, names: &[&str]) -> bool
    ensures { result ≡ list_all (λ name. is_some (get name.now (view value.now))) names.now }
{
    names.iter().all(|name| value.get(*name).is_some())
}

/// Whether a value is an object with each of the required members, perhaps some of the optional ones, and no others.
#[tactic(auto, unfolding(graph_format::specs::Walk::has_form))]
pub(crate) fn has_form(value: &Value, required: &[&str], optional: &[&str]) -> bool
    ensures { result ≡ has_form (map (λ k. k.now) required.now) (map (λ k. k.now) optional.now) (view value.now) }
{
    match value.as_object() {
        Some(members) => has_only(members, required, optional) && has_each(value, required),
        None => false,
    }
}

/// Whether a member is this text.
pub(crate) fn says(value: &Value, key: &str, text: &str) -> bool
    ensures { result ≡ says key.now text.now (view value.now) }
{
    match value.get(key).and_then(Value::as_str) {
        Some(other) => other == text,
        None => false,
    }
}

/// What a member states that is there.
pub(crate) fn member<F: Form>(
    alloc: Global,
    place: &Place<'_>,
    value: &Value,
    key: &'static str,
    form: &F,
) -> Result<F::Stated, DetailFault<Name>>
    ensures { Gives result (member_at (F.reads form.now) (pointer_of place.now) key.now (view value.now)) }
{
    match value.get(key) {
        Some(member) => form.read_at(alloc, &Place::Member(&*place, key), member),
        None => Err(place.misshapen(alloc)),
    }
}

/// What a member states, or the default where it is left out.
pub(crate) fn member_or<F: Form>(
    alloc: Global,
    place: &Place<'_>,
    value: &Value,
    key: &'static str,
    form: &F,
    default: F::Stated,
) -> Result<F::Stated, DetailFault<Name>>
    ensures { Gives result (member_or default (F.reads form.now) (pointer_of place.now) key.now (view value.now)) }
{
    match value.get(key) {
        Some(member) => form.read_at(alloc, &Place::Member(&*place, key), member),
        None => Ok(default),
    }
}

/// What the values of a list state.
pub(crate) fn items<F: Form>(
    alloc: Global,
    place: &Place<'_>,
    values: &[Value],
    form: &F,
) -> Result<List<F::Stated>, DetailFault<Name>>
    ensures { Gives result (items_at (F.reads form.now) (pointer_of place.now) 0 (items_view values.now)) }
{
    let mut items = Vec::new(alloc);
    for (i, value) in values.iter().enumerate() {
        let item = form.read_at(alloc, &Place::Item(&*place, i), value)?;
        items.push(item)?;
    }
    Ok(List::new(items))
}

/// What a list states.
pub(crate) fn list<F: Form>(
    alloc: Global,
    place: &Place<'_>,
    value: &Value,
    form: &F,
) -> Result<List<F::Stated>, DetailFault<Name>>
    ensures { Gives result (list_at (F.reads form.now) (pointer_of place.now) (view value.now)) }
{
    match value.as_array() {
        Some(values) => items(alloc, place, values.as_slice(), &*form),
        None => Err(place.misshapen(alloc)),
    }
}

/// What a member states that is a list.
pub(crate) fn list_member<F: Form>(
    alloc: Global,
    place: &Place<'_>,
    value: &Value,
    key: &'static str,
    form: &F,
) -> Result<List<F::Stated>, DetailFault<Name>>
    ensures { Gives result (member_at (list_at (F.reads form.now)) (pointer_of place.now) key.now (view value.now)) }
{
    match value.get(key) {
        Some(member) => list(alloc, &Place::Member(&*place, key), member, &*form),
        None => Err(place.misshapen(alloc)),
    }
}

/// A whole number.
pub(crate) struct Whole;

impl Form for Whole {
    type Stated = i64;

    ghost reads = { λ _. whole_at };

    fn read_at(
        &self,
        alloc: Global,
        place: &Place<'_>,
        value: &Value,
    ) -> Result<i64, DetailFault<Name>> {
        match value.as_i64() {
            Some(number) => Ok(number),
            None => Err(place.misshapen(alloc)),
        }
    }
}
