// What parameters are supplied with from outside.
ghost use Rattle.std.specs.Prelude.{◌≡◌, None, slice_get, slice_index_or, IfOk};
ghost use Rattle.pisdf_model.specs.ParamOrder.{is_chosen_kind};
ghost use Rattle.pisdf_model.specs.Ports.{is_inherited};
ghost use Rattle.param_resolver.specs.Assignment.{supplied_next, supplied_to, one_if};
ghost use Rattle.param_resolver.specs.EarlyCheck.{supplied_late};

use pisdf_model::{Param, ParamKind};
use std::alloc::{AllocError, Global};

/// What a parameter is supplied with, where these are the next values of the inherited and of the chosen ones.
fn supplied_next(kind: &ParamKind, inherited: Option<i64>, chosen: Option<i64>) -> Option<i64>
    ensures { result ≡ supplied_next kind.now inherited chosen }
{
    match kind {
        ParamKind::Inherited => inherited,
        ParamKind::Derived(_) => None,
        ParamKind::Chosen => chosen,
    }
}

/// How many of the inherited values a parameter takes.
fn inherited_taken(kind: &ParamKind) -> usize
    ensures { result ≡ one_if (is_inherited kind.now) }
{
    match kind {
        ParamKind::Inherited => 1,
        _ => 0,
    }
}

/// How many of the chosen values a parameter takes.
fn chosen_taken(kind: &ParamKind) -> usize
    ensures { result ≡ one_if (is_chosen_kind kind.now) }
{
    match kind {
        ParamKind::Chosen => 1,
        _ => 0,
    }
}

/// The value at a place, if there is one.
fn value_at(values: &[i64], place: usize) -> Option<i64>
    ensures { result ≡ slice_get values.now place }
{
    values.get(place).copied()
}

/// The values of the inherited and of the chosen parameters, each in file order, laid out by parameter.
pub(crate) fn supplied_to(
    alloc: Global,
    params: &[Param],
    inherited: &[i64],
    chosen: &[i64],
) -> Result<Vec<Option<i64>>, AllocError>
    ensures { IfOk result (λ v. v.items ≡ supplied_to params.now inherited.now chosen.now) }
{
    let mut supplied = Vec::with_capacity(alloc, params.len())?;
    let mut inherited_before = 0;
    let mut chosen_before = 0;
    for param in params {
        let next = value_at(inherited, inherited_before);
        let next_chosen = value_at(chosen, chosen_before);
        supplied.push(supplied_next(&param.kind, next, next_chosen))?;
        inherited_before += inherited_taken(&param.kind);
        chosen_before += chosen_taken(&param.kind);
    }
    Ok(supplied)
}

/// The value known of a parameter, if one is.
fn known_at(known: &[Option<i64>], place: usize) -> Option<i64>
    ensures { result ≡ slice_index_or known.now place None }
{
    match known.get(place) {
        Some(value) => *value,
        None => None,
    }
}

/// What is known of the inherited parameters, and the values of the chosen ones in file order, laid out by parameter.
pub(crate) fn supplied_late(
    alloc: Global,
    params: &[Param],
    known: &[Option<i64>],
    chosen: &[i64],
) -> Result<Vec<Option<i64>>, AllocError>
    ensures { IfOk result (λ v. v.items ≡ supplied_late params.now known.now chosen.now) }
{
    let mut supplied = Vec::with_capacity(alloc, params.len())?;
    let mut chosen_before = 0;
    for (place, param) in params.iter().enumerate() {
        let inherited = known_at(known, place);
        let next_chosen = value_at(chosen, chosen_before);
        supplied.push(supplied_next(&param.kind, inherited, next_chosen))?;
        chosen_before += chosen_taken(&param.kind);
    }
    Ok(supplied)
}
