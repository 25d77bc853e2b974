// The values of parameters, each worked out once, after all that it refers to.
ghost use Rattle.std.specs.Prelude.{◌≡◌, ◌<◌, ◌^◌, ◌++◌, ℕ, pos, [], map, length, slice_set, unwrap_or, slice_index_or, Some, None, IsSome, IfOk, IfSome, IfErr, OnOk};
ghost use Rattle.param_expr.specs.Eval.{RefersBelow, eval_of};
ghost use Rattle.pisdf_model.specs.Details.{first};
ghost use Rattle.pisdf_model.specs.ParamOrder.{places_of, refers as refers_of};
ghost use Rattle.param_resolver.specs.Assignment.{are_sound, evaluated_within, StandsAt, supplied_next, supplied_to, supplied_within, one_if, numbers as numbers_in, outcome, param_faults, value_in, values_of, why_of, within};
ghost use Rattle.param_resolver.specs.Settled.{AreOrdered, AreSettled, Keeps, faults_found, KeepsTelling, ReferInside, found_at, value_found, values_found};

use crate::fault::{ResolveFault, Why};
use param_expr::{EvalFault, Expr, eval};
use pisdf_model::{Param, ParamKind, refers};
use std::alloc::{AllocError, Global};

/// What becomes of a parameter: its value where it is sound, none where it is supplied with none or refers to one that isn't
/// sound, or why it isn't sound itself.
pub(crate) type Outcome = Result<Option<i64>, Why>;

/// Why an expression has no value.
pub(crate) fn why_of(fault: EvalFault) -> Why
    ensures { result ≡ why_of fault }
{
    match fault {
        EvalFault::Overflow => Why::Overflow,
        EvalFault::Division => Why::Division,
    }
}

fn within(low: i64, high: i64, value: i64) -> Outcome
    ensures { result ≡ within low high value }
{
    if low <= value && value <= high {
        Ok(Some(value))
    } else {
        Err(Why::Value(value))
    }
}

fn supplied_within(low: i64, high: i64, supplied: Option<i64>) -> Outcome
    ensures { result ≡ supplied_within low high supplied }
{
    match supplied {
        None => Ok(None),
        Some(value) => within(low, high, value),
    }
}

fn evaluated_within(low: i64, high: i64, expr: &Expr, numbers: &[i64]) -> Outcome
    requires { RefersBelow (length numbers.now) expr.now }
    ensures { result ≡ evaluated_within low high (eval_of numbers.now expr.now) }
{
    match eval(expr, numbers) {
        Ok(value) => within(low, high, value),
        Err(fault) => Err(why_of(fault)),
    }
}

/// The value found of a parameter, if it is sound.
fn value_found(found: Option<Outcome>) -> Option<i64>
    ensures { result ≡ value_found found }
{
    match found {
        Some(Ok(value)) => value,
        _ => None,
    }
}

/// The same of the parameter at a place.
fn value_at(found: &[Option<Outcome>], place: u32) -> Option<i64>
    ensures { result ≡ slice_index_or (values_found found.now) place None }
{
    match found.get(place as usize) {
        Some(outcome) => value_found(*outcome),
        None => None,
    }
}

/// Whether all of these parameters are sound.
fn are_sound(found: &[Option<Outcome>], places: &[u32]) -> bool
    ensures { result ≡ are_sound (values_found found.now) places.now }
{
    places.iter().all(|place| value_at(found, *place).is_some())
}

/// What becomes of a parameter, where all that it refers to is settled.
fn outcome(
    param: &Param,
    supplied: Option<i64>,
    places: &[u32],
    found: &[Option<Outcome>],
    numbers: &[i64],
) -> Outcome
    requires places { places.now ≡ refers_of param.now.kind }
    requires numbers { numbers.now ≡ numbers_in (values_found found.now) }
    requires inside { ReferInside (length found.now) param.now.kind }
    ensures { result ≡ outcome (values_found found.now) param.now.low param.now.high param.now.kind supplied }
{
    match &param.kind {
        ParamKind::Derived(expr) => {
            if are_sound(found, places) {
                evaluated_within(param.low, param.high, expr, numbers)
            } else {
                Ok(None)
            }
        }
        ParamKind::Inherited | ParamKind::Chosen => supplied_within(
            param.low, param.high, supplied,
        ),
    }
}

/// The value of a sound parameter, and 0 of any other.
fn number(outcome: Outcome) -> i64
    ensures { result ≡ unwrap_or (value_in outcome) (pos 0) }
{
    match outcome {
        Ok(Some(value)) => value,
        _ => 0,
    }
}

/// Writes down what becomes of the parameter at a place.
fn put(found: &mut [Option<Outcome>], numbers: &mut [i64], place: usize, outcome: Outcome)
    requires inside { place < length found.old }
    requires long { length numbers.old ≡ length found.old }
    requires numbers { numbers.old ≡ numbers_in (values_found found.old) }
    ensures found { found.new ≡ slice_set found.old place (Some outcome) }
    ensures numbers { numbers.new ≡ numbers_in (values_found found.new) }
{
    numbers[place] = number(outcome);
    found[place] = Some(outcome);
}

/// Settles the parameter at a place, after all that it refers to. What is settled already is left as it is.
///
/// # Errors
///
/// [`AllocError`]; some of what the parameter refers to may then be settled.
fn settle(
    alloc: Global,
    params: &[Param],
    supplied: &[Option<i64>],
    found: &mut [Option<Outcome>],
    numbers: &mut [i64],
    place: usize,
) -> Result<(), AllocError>
    requires ordered { AreOrdered params.now }
    requires inside { place < length params.now }
    requires supplied { length supplied.now ≡ length params.now }
    requires found { length found.old ≡ length params.now }
    requires long { length numbers.old ≡ length found.old }
    requires numbers { numbers.old ≡ numbers_in (values_found found.old) }
    ensures settled { OnOk result (IsSome (found_at found.new place)) }
    ensures kept { Keeps found.old found.new }
    ensures told { KeepsTelling params.now supplied.now found.old found.new }
    ensures numbers { numbers.new ≡ numbers_in (values_found found.new) }
{
    if found[place].is_some() {
        return Ok(());
    }
    let named = refers(alloc, &params[place].kind)?;
    for other in &named {
        settle(alloc, params, supplied, found, numbers, *other as usize)?;
    }
    let settled = outcome(&params[place], supplied[place], &named, found, numbers);
    put(found, numbers, place, settled);
    Ok(())
}

/// Settles all parameters.
fn settle_all(
    alloc: Global,
    params: &[Param],
    supplied: &[Option<i64>],
    found: &mut [Option<Outcome>],
    numbers: &mut [i64],
) -> Result<(), AllocError>
    requires ordered { AreOrdered params.now }
    requires supplied { length supplied.now ≡ length params.now }
    requires found { length found.old ≡ length params.now }
    requires long { length numbers.old ≡ length found.old }
    requires numbers { numbers.old ≡ numbers_in (values_found found.old) }
    ensures settled { OnOk result (AreSettled (length params.now) found.new) }
    ensures told { KeepsTelling params.now supplied.now found.old found.new }
    ensures numbers { numbers.new ≡ numbers_in (values_found found.new) }
{
    for place in 0..params.len() {
        settle(alloc, params, supplied, found, numbers, place)?;
    }
    Ok(())
}

/// The place of the first parameter that has a fault, with that.
fn first_fault(found: &[Option<Outcome>]) -> Option<(usize, Why)>
    ensures first { result ≡ first (faults_found found.now) }
    ensures inside { IfSome result (λ fault. fault.0 < length found.now) }
{
    for (place, outcome) in found.iter().enumerate() {
        if let Some(Err(why)) = *outcome {
            return Some((place, why));
        }
    }
    None
}

fn values_found(alloc: Global, found: &[Option<Outcome>]) -> Result<Vec<Option<i64>>, AllocError>
    ensures { IfOk result (λ v. v.items ≡ values_found found.now) }
{
    let mut values = Vec::with_capacity(alloc, found.len())?;
    for outcome in found {
        values.push(value_found(*outcome))?;
    }
    Ok(values)
}

/// The values of parameters, none of those that aren't sound.
#[derive(Drop)]
pub(crate) struct Assigned {
    pub(crate) values: Vec<Option<i64>>,
    /// The same with 0 in place of those that aren't there.
    pub(crate) numbers: Vec<i64>,
}

/// The values of parameters that are supplied with these, if none has a fault.
pub(crate) fn assign(
    alloc: Global,
    params: &[Param],
    supplied: &[Option<i64>],
) -> Result<Assigned, ResolveFault>
    requires ordered { AreOrdered params.now }
    requires few { length params.now < 2 ^ 32 }
    requires supplied { length supplied.now ≡ length params.now }
    ensures values { IfOk result (λ assigned. assigned.values.items ≡ values_of params.now supplied.now) }
    ensures numbers { IfOk result (λ assigned. assigned.numbers.items ≡ numbers_in (values_of params.now supplied.now)) }
    ensures sound { OnOk result (param_faults params.now supplied.now ≡ []) }
    ensures fault { IfErr result (StandsAt (param_faults params.now supplied.now)) }
{
    let mut found = vec![in alloc; None; params.len()]?;
    let mut numbers = vec![in alloc; 0; params.len()]?;
    settle_all(alloc, params, supplied, &mut found, &mut numbers)?;
    match first_fault(&found) {
        Some((place, why)) => Err(ResolveFault::Param {
            param: place as u32,
            why,
        }),
        None => Ok(Assigned {
            values: values_found(alloc, &found)?,
            numbers,
        }),
    }
}
