// Lists as the tables write them: `{"times": n, "of": item}` stands for an item, or the items of a list, so many times,
// and `{"times": n, "from": k}` for n numbers from k on, with `"step": s` each s more than the one before. In a list of rows
// `{"times": n, "rows": [row, ..], "step": [s, ..]}` stands for these rows of numbers n times, the numbers each time more by
// their steps.
ghost use Rattle.std.specs.Prelude.{◌≡◌, IfSome, sum};

use crate::row::{items, number_of, small};
use crate::trouble::Trouble;
use sdf_level::List;
use serde_json::Value;
use std::alloc::Global;

/// The numbers of a list, behind those that are there.
fn push_each(numbers: &mut Vec<i64>, list: &[Value]) -> Result<(), Trouble> {
    for number in list {
        numbers.push(number_of(number, "of")?)?;
    }
    Ok(())
}

/// The numbers of a list so many times, behind those that are there.
fn push_list(numbers: &mut Vec<i64>, list: &[Value], times: u32) -> Result<(), Trouble> {
    for _ in 0..times {
        push_each(numbers, list)?;
    }
    Ok(())
}

/// The number that is the item's member of this name, where it has such a one.
fn whole(item: &Value, name: &'static str) -> Option<i64> {
    match item.get(name) {
        Some(value) => value.as_i64(),
        None => None,
    }
}

/// The first of the numbers that an item stands for, and how much more each next one is.
fn first_and_step(item: &Value) -> Result<(i64, i64), Trouble> {
    if let Some(number) = whole(item, "of") {
        return Ok((number, 0));
    }
    match whole(item, "from") {
        Some(number) => Ok((number, whole(item, "step").unwrap_or(1))),
        None => Err(Trouble::Member("from")),
    }
}

/// So many numbers, each more by the step than the one before, behind those that are there.
fn push_stepped(numbers: &mut Vec<i64>, first: i64, step: i64, times: u32) -> Result<(), Trouble> {
    let mut next = first;
    for _ in 0..times {
        numbers.push(next)?;
        next = next.saturating_add(step);
    }
    Ok(())
}

/// The numbers that an item stands for, behind those that are there.
fn push_numbers(numbers: &mut Vec<i64>, item: &Value) -> Result<(), Trouble> {
    if let Some(number) = item.as_i64() {
        numbers.push(number)?;
        return Ok(());
    }
    if let Some(Value::Array(list)) = item.get("of") {
        return push_list(numbers, list.as_slice(), small(item, "times")?);
    }
    let (first, step) = first_and_step(item)?;
    push_stepped(numbers, first, step, small(item, "times")?)
}

/// The numbers of a list.
///
/// # Errors
///
/// [`Trouble`].
pub fn numbers_of(alloc: Global, list: &[Value]) -> Result<Vec<i64>, Trouble> {
    let mut numbers = Vec::new(alloc);
    for item in list {
        push_numbers(&mut numbers, item)?;
    }
    Ok(numbers)
}

/// The numbers of the member of this name; none where there is no such member.
///
/// # Errors
///
/// [`Trouble`].
pub fn numbers(alloc: Global, row: &Value, name: &'static str) -> Result<Vec<i64>, Trouble> {
    numbers_of(alloc, items(row, name)?)
}

/// The numbers of 32 bits of the member of this name; none where there is no such member.
///
/// # Errors
///
/// [`Trouble`].
pub fn smalls(alloc: Global, row: &Value, name: &'static str) -> Result<Vec<u32>, Trouble> {
    let mut smalls = Vec::new(alloc);
    for number in numbers(alloc, row, name)? {
        match u32::try_from(number) {
            Ok(small) => smalls.push(small)?,
            Err(_) => return Err(Trouble::Member(name)),
        }
    }
    Ok(smalls)
}

/// The item's list so many times, behind those that are there.
fn push_same(alloc: Global, lists: &mut Vec<List<i64>>, item: &Value) -> Result<(), Trouble> {
    let list = items(item, "list")?;
    for _ in 0..small(item, "times")? {
        lists.push(List::new(numbers_of(alloc, list)?))?;
    }
    Ok(())
}

/// The row's lists of this name. `{"times": n, "list": list}` stands for a list so many times.
///
/// # Errors
///
/// [`Trouble`].
pub fn lists(alloc: Global, row: &Value, name: &'static str) -> Result<List<List<i64>>, Trouble> {
    let mut lists = Vec::new(alloc);
    for list in items(row, name)? {
        match list.as_array() {
            Some(items) => lists.push(List::new(numbers_of(alloc, items.as_slice())?))?,
            None => push_same(alloc, &mut lists, list)?,
        }
    }
    Ok(List::new(lists))
}

/// The sum of numbers, where it is one of 32 bits.
#[tactic(auto, using(std::proofs::lemmas::Grind::common_steps))]
pub fn total(numbers: &[u32]) -> Option<u32>
    ensures { IfSome result (λ t. t ≡ sum numbers.now) }
{
    let mut total = 0u32;
    for number in numbers {
        total = total.checked_add(*number)?;
    }
    Some(total)
}

/// A number, more by so many times its step.
fn more(number: &Value, step: &Value, times: u32) -> Result<i64, Trouble> {
    let number = number_of(number, "rows")?;
    let step = number_of(step, "rows")?;
    Ok(number.saturating_add(step.saturating_mul(i64::from(times))))
}

/// The numbers of a row, each more by so many times its step.
fn stepped(alloc: Global, row: &Value, steps: &[Value], times: u32) -> Result<Value, Trouble> {
    let Some(numbers) = row.as_array() else {
        return Err(Trouble::Member("rows"));
    };
    let mut values = Vec::new(alloc);
    for (number, step) in numbers.iter().zip(steps) {
        values.push(Value::from(more(number, step, times)?))?;
    }
    Ok(Value::from(values))
}

/// The rows that an item stands for, behind those that are there.
fn push_rows(alloc: Global, values: &mut Vec<Value>, item: &Value) -> Result<(), Trouble> {
    let rows = items(item, "rows")?;
    let steps = items(item, "step")?;
    for times in 0..small(item, "times")? {
        for row in rows {
            values.push(stepped(alloc, row, steps, times)?)?;
        }
    }
    Ok(())
}

/// The numbers that an item stands for, behind the values that are there.
fn push_counted(alloc: Global, values: &mut Vec<Value>, item: &Value) -> Result<(), Trouble> {
    let mut numbers = Vec::new(alloc);
    push_numbers(&mut numbers, item)?;
    for number in numbers {
        values.push(Value::from(number))?;
    }
    Ok(())
}

/// A wanted answer with its lists written out.
pub fn written_out(wanted: &Value, alloc: Global) -> Result<Value, Trouble> {
    let Value::Array(list) = wanted else {
        return Ok(wanted.clone()?);
    };
    let mut values = Vec::new(alloc);
    for item in list {
        if item.get("rows").is_some() {
            push_rows(alloc, &mut values, item)?;
        } else if item.get("times").is_some() {
            push_counted(alloc, &mut values, item)?;
        } else {
            values.push(written_out(item, alloc)?)?;
        }
    }
    Ok(Value::from(values))
}
