// Rates and arguments under the values of parameters.
ghost use Rattle.std.specs.Prelude.{◌≡◌, ◌<◌, ◌++◌, [], length, All, IfOk, IfErr, OnOk};
ghost use Rattle.std.specs.Result.{result_unwrap_or};
ghost use Rattle.std.specs.Prelude.{Ok, pos};
ghost use Rattle.param_expr.specs.Eval.{RefersBelow};
ghost use Rattle.param_resolver.specs.Rates.{arg_faults, arg_name, as_rate, arg_under, arg_values, fault_at, interface_faults, interface_rates, port_faults, port_rates, rate_under};
ghost use Rattle.param_resolver.specs.Refusal.{StandsFirst, part_refusal_of};
ghost use Rattle.pisdf_model.specs.Wires.{port_text};

use crate::assignment::why_of;
use crate::fault::Why;
use param_expr::{Expr, Name, eval};
use pisdf_model::{Interface, Port, port_text};
use sdf_level::RATE_LIMIT;
use std::alloc::{AllocError, AllocFailed, Global};

/// Why a part of a graph has no rate, or an argument no value.
#[derive(Debug, Drop)]
pub(crate) enum PartFault {
    /// The rate or argument of this name.
    Rate { name: Name, why: Why },
    /// Want of memory.
    Memory,
}

impl From<AllocError> for PartFault {
    ghost use Rattle.param_resolver.specs.declared.rates.PartFault.TheVariants.{Memory};
    ghost use Rattle.std.specs.Prelude.{◌≡◌};

    ghost from_gives = { λ _ e. e ≡ Memory };

    fn from(_refused: AllocError) -> PartFault {
        PartFault::Memory
    }
}

impl<T: Drop> From<AllocFailed<T>> for PartFault {
    ghost use Rattle.param_resolver.specs.declared.rates.PartFault.TheVariants.{Memory};
    ghost use Rattle.std.specs.Prelude.{◌≡◌};

    ghost from_gives = { λ _ e. e ≡ Memory };

    fn from(_refused: AllocFailed<T>) -> PartFault {
        PartFault::Memory
    }
}

/// A whole number as a rate, from 0 to `RATE_LIMIT`.
fn as_rate(value: i64) -> Result<u32, Why>
    ensures { result ≡ as_rate (Ok value) }
{
    if 0 <= value && value <= RATE_LIMIT as i64 {
        Ok(value as u32)
    } else {
        Err(Why::Value(value))
    }
}

fn rate(expr: &Expr, numbers: &[i64]) -> Result<u32, Why>
    requires { RefersBelow (length numbers.now) expr.now }
    ensures { result ≡ rate_under numbers.now expr.now }
{
    match eval(expr, numbers) {
        Ok(value) => as_rate(value),
        Err(fault) => Err(why_of(fault)),
    }
}

fn arg(expr: &Expr, numbers: &[i64]) -> Result<i64, Why>
    requires { RefersBelow (length numbers.now) expr.now }
    ensures { result ≡ arg_under numbers.now expr.now }
{
    match eval(expr, numbers) {
        Ok(value) => Ok(value),
        Err(fault) => Err(why_of(fault)),
    }
}

fn interface_rate(interface: &Interface, numbers: &[i64]) -> Result<u32, PartFault>
    requires { RefersBelow (length numbers.now) interface.now.rate }
    ensures rate { IfOk result (λ r. r ≡ result_unwrap_or (rate_under numbers.now interface.now.rate) 0) }
    ensures sound { OnOk result (fault_at interface.now.name (rate_under numbers.now interface.now.rate) ≡ []) }
    ensures fault { IfErr result (λ f. StandsFirst (fault_at interface.now.name (rate_under numbers.now interface.now.rate)) (part_refusal_of f)) }
{
    match rate(&interface.rate, numbers) {
        Ok(rate) => Ok(rate),
        Err(why) => Err(PartFault::Rate {
            name: interface.name.clone()?,
            why,
        }),
    }
}

/// The rates of interfaces, or the fault of the first that has one.
pub(crate) fn interface_rates(
    alloc: Global,
    interfaces: &[Interface],
    numbers: &[i64],
) -> Result<Vec<u32>, PartFault>
    requires { All (λ x. RefersBelow (length numbers.now) x.rate) interfaces.now }
    ensures rates { IfOk result (λ rates. rates.items ≡ interface_rates numbers.now interfaces.now) }
    ensures sound { OnOk result (interface_faults numbers.now interfaces.now ≡ []) }
    ensures fault { IfErr result (λ f. StandsFirst (interface_faults numbers.now interfaces.now) (part_refusal_of f)) }
{
    let mut rates = Vec::with_capacity(alloc, interfaces.len())?;
    for interface in interfaces {
        rates.push(interface_rate(interface, numbers)?)?;
    }
    Ok(rates)
}

fn port_rate(alloc: Global, actor: &Name, port: &Port, numbers: &[i64]) -> Result<u32, PartFault>
    requires { RefersBelow (length numbers.now) port.now.rate }
    ensures rate { IfOk result (λ r. r ≡ result_unwrap_or (rate_under numbers.now port.now.rate) 0) }
    ensures sound { OnOk result (fault_at (port_text actor.now port.now.name) (rate_under numbers.now port.now.rate) ≡ []) }
    ensures fault { IfErr result (λ f. StandsFirst (fault_at (port_text actor.now port.now.name) (rate_under numbers.now port.now.rate)) (part_refusal_of f)) }
{
    match rate(&port.rate, numbers) {
        Ok(rate) => Ok(rate),
        Err(why) => Err(PartFault::Rate {
            name: port_text(alloc, actor, &port.name)?,
            why,
        }),
    }
}

/// The rates of an actor's ports, or the fault of the first that has one.
pub(crate) fn port_rates(
    alloc: Global,
    actor: &Name,
    ports: &[Port],
    numbers: &[i64],
) -> Result<Vec<u32>, PartFault>
    requires { All (λ p. RefersBelow (length numbers.now) p.rate) ports.now }
    ensures rates { IfOk result (λ rates. rates.items ≡ port_rates numbers.now ports.now) }
    ensures sound { OnOk result (port_faults numbers.now actor.now ports.now ≡ []) }
    ensures fault { IfErr result (λ f. StandsFirst (port_faults numbers.now actor.now ports.now) (part_refusal_of f)) }
{
    let mut rates = Vec::with_capacity(alloc, ports.len())?;
    for port in ports {
        rates.push(port_rate(alloc, actor, port, numbers)?)?;
    }
    Ok(rates)
}

/// `a[0]`.
fn arg_name(alloc: Global, actor: &Name, number: usize) -> Result<Name, AllocError>
    ensures { IfOk result (λ name. name ≡ arg_name actor.now number) }
{
    let mut text = String::from_str(alloc, actor.text())?;
    text.push_str("[")?;
    let written = format!(in alloc; "{number}")?;
    text.push_str(written.as_str())?;
    text.push_str("]")?;
    Ok(Name::new(text))
}

fn arg_value(
    alloc: Global,
    actor: &Name,
    number: usize,
    expr: &Expr,
    numbers: &[i64],
) -> Result<i64, PartFault>
    requires { RefersBelow (length numbers.now) expr.now }
    ensures value { IfOk result (λ v. v ≡ result_unwrap_or (arg_under numbers.now expr.now) (pos 0)) }
    ensures sound { OnOk result (fault_at (arg_name actor.now number) (arg_under numbers.now expr.now) ≡ []) }
    ensures fault { IfErr result (λ f. StandsFirst (fault_at (arg_name actor.now number) (arg_under numbers.now expr.now)) (part_refusal_of f)) }
{
    match arg(expr, numbers) {
        Ok(value) => Ok(value),
        Err(why) => Err(PartFault::Rate {
            name: arg_name(alloc, actor, number)?,
            why,
        }),
    }
}

/// The values of an actor's arguments, or the fault of the first that has one.
pub(crate) fn arg_values(
    alloc: Global,
    actor: &Name,
    args: &[Expr],
    numbers: &[i64],
) -> Result<Vec<i64>, PartFault>
    requires { All (λ e. RefersBelow (length numbers.now) e) args.now }
    ensures values { IfOk result (λ values. values.items ≡ arg_values numbers.now args.now) }
    ensures sound { OnOk result (arg_faults numbers.now actor.now args.now ≡ []) }
    ensures fault { IfErr result (λ f. StandsFirst (arg_faults numbers.now actor.now args.now) (part_refusal_of f)) }
{
    let mut values = Vec::with_capacity(alloc, args.len())?;
    for (number, expr) in args.iter().enumerate() {
        values.push(arg_value(alloc, actor, number, expr, numbers)?)?;
    }
    Ok(values)
}
