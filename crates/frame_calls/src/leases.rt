// Leases of blocks: cut and joined, lent to a frame and taken back, and of a pool.
ghost use Rattle.std.specs.Prelude.{◌≡◌, ◌+◌, ◌<◌, ◌≤◌, ◌⊎◌, ◌^◌, [], ◌∷◌, length};
ghost use Rattle.std.specs.Bool.{OnTrue};
ghost use Rattle.kernel_gate.specs.Signed.{IsFrameOf, unnamed};
ghost use Rattle.kernel_gate.specs.Table.{the_signatures};
ghost use Rattle.kernel_gate.specs.Value.{SameFrame};
ghost use Rattle.split_block.specs.View.{lease_place};
ghost use Rattle.frame_calls.specs.Signatures.{HasKernel};

use crate::frame_parts::parts_text;
use crate::kernels::{has_kernel, place_of, word_of};
use case_rows::{Trouble, answer_in, numbers, small, smalls, word};
use cell_pool::Pool;
use kernel_gate::{Frame, Gate, KernelFault, Lent, Room, RoomSize};
use kernel_library::Library;
use sdf_level::List;
use serde_json::Value;
use split_block::Lease;
use std::alloc::Global;

/// The cells in leases of one cell each, all of which are there at once, joined again from the last to the first.
fn cut_in_ones(lease: Lease) -> Lease
    requires { length lease.cells < 2 ^ 32 }
    ensures { result ≡ lease }
{
    if lease.as_slice().len() < 2 {
        return lease;
    }
    let (first, others) = lease.split(1);
    first.join(cut_in_ones(others))
}

/// What both leases of a cut block hold, and then the block: the row has its cells and the place of the cut.
fn cut_in_two(alloc: Global, cells: Vec<i64>, at: u32) -> Result<Value, Trouble>
    requires { at ≤ length cells.items }
{
    let (left, right) = Lease::from_vec(cells).split(at);
    let (first, second) = (left.as_slice(), right.as_slice());
    let parts = format!(in alloc; "{first:?}, {second:?}");
    let cells = left.join(right).into_vec();
    let parts = parts?;
    answer_in(alloc, format!(in alloc; "[{parts}, {cells:?}]"))
}

/// What both leases of the row's block hold that is cut at a place, and then the whole block. Where the row has no place,
/// what the block holds that was cut in leases of one cell each.
pub fn cut(alloc: Global, row: &Value) -> Result<Value, Trouble> {
    let cells = numbers(alloc, row, "cells")?;
    if cells.len() > 1_000_000 {
        return Err(Trouble::Member("cells"));
    }
    if row.get("at").is_none() {
        let whole = cut_in_ones(Lease::from_vec(cells)).into_vec();
        return answer_in(alloc, format!(in alloc; "{whole:?}"));
    }
    let at = small(row, "at")?;
    if at as usize > cells.len() {
        return Err(Trouble::Member("at"));
    }
    cut_in_two(alloc, cells, at)
}

/// The place that is this member of the row: its start, and how many cells it has.
fn cells_at(alloc: Global, row: &Value, name: &'static str) -> Result<(u32, u32), Trouble> {
    match smalls(alloc, row, name)?.as_slice() {
        [start, len] => Ok((*start, *len)),
        _ => Err(Trouble::Member(name)),
    }
}

/// Whether a place has a cell, and lies in a block of so many.
fn is_within(height: u32, start: u32, len: u32) -> bool
    ensures { OnTrue result ((1 ≤ len) × (start + len ≤ height)) }
{
    1 <= len && u64::from(start) + u64::from(len) <= u64::from(height)
}

/// Whether the first of two places ends where the second starts, or before.
fn is_before(start: u32, len: u32, other: u32) -> bool
    ensures { OnTrue result (start + len ≤ other) }
{
    u64::from(start) + u64::from(len) <= u64::from(other)
}

/// What two leases of a new pool hold, and then the cells of the pool.
fn two_leases(
    alloc: Global,
    height: u32,
    first: (u32, u32),
    second: (u32, u32),
) -> Result<Value, Trouble>
    requires first { (1 ≤ first.1) × (first.0 + first.1 ≤ height) }
    requires second { (1 ≤ second.1) × (second.0 + second.1 ≤ height) }
    requires apart { (second.0 + second.1 ≤ first.0) ⊎ (first.0 + first.1 ≤ second.0) }
{
    let mut pool = Pool::start(alloc, height, 2)?;
    let one = pool.take(first.0, first.1);
    let two = pool.take(second.0, second.1);
    let (held, other) = (one.as_slice(), two.as_slice());
    let leases = format!(in alloc; "{held:?}, {other:?}");
    pool.give(two);
    pool.give(one);
    let cells = pool.close();
    let leases = leases?;
    answer_in(alloc, format!(in alloc; "[{leases}, {cells:?}]"))
}

/// What the two leases of the row's pool hold, which are out at once, and then the cells of the pool.
pub fn pooled(alloc: Global, row: &Value) -> Result<Value, Trouble> {
    let height = small(row, "height")?;
    let first = cells_at(alloc, row, "first")?;
    let second = cells_at(alloc, row, "second")?;
    if !is_within(height, first.0, first.1) || !is_within(height, second.0, second.1) {
        return Err(Trouble::Member("height"));
    }
    if !is_before(second.0, second.1, first.0) && !is_before(first.0, first.1, second.0) {
        return Err(Trouble::Member("second"));
    }
    two_leases(alloc, height, first, second)
}

/// The frame that fires a kernel over two leases, the first its input and the second its output. It is made in the room.
fn frame_over(
    room: Room,
    kind: u32,
    args: List<i64>,
    sets: List<i64>,
    input: Lease,
    output: Lease,
) -> Frame
    requires room { (1 ≤ room.inputs) × (1 ≤ room.outputs) }
    ensures made_of { (result.kind ≡ kind) × (result.args ≡ args) × (result.sets ≡ sets) }
    ensures cells { (result.inputs ≡ input.cells ∷ []) × (result.outputs ≡ output.cells ∷ []) }
    ensures inputs { result.places.inputs ≡ lease_place input ∷ [] }
    ensures outputs { result.places.outputs ≡ lease_place output ∷ [] }
{
    let mut lent = room.open();
    let parts: &mut Lent = &mut lent;
    parts.kind = kind;
    parts.args = args.into_items();
    parts.sets = sets.into_items();
    parts.inputs.push_reserved(input);
    parts.outputs.push_reserved(output);
    Frame::lend(lent)
}

/// The one lease of a list.
fn only(mut leases: Vec<Lease>) -> Lease
    requires { length leases.items ≡ 1 }
    ensures { leases.items ≡ result ∷ [] }
{
    match leases.pop() {
        Some(lease) => {
            leases.destroy_empty();
            lease
        }
        None => unreachable!(),
    }
}

/// Fires the frame's kernel, or leaves the frame as it is.
fn fire_if(fires: bool, frame: &mut Frame) -> Result<(), KernelFault>
    requires { IsFrameOf (unnamed the_signatures) frame.old }
    ensures { SameFrame frame.old frame.new }
{
    if fires {
        return Library.fire(frame);
    }
    Ok(())
}

/// The word for what a firing gave.
fn outcome_of(fired: Result<(), KernelFault>) -> &'static str {
    match fired {
        Ok(()) => "ok",
        Err(fault) => word_of(fault),
    }
}

/// A frame over the two leases of a cut block, the first its input and the second its output: the word for what its firing gave,
/// what the frame held then, and the block that the leases made.
fn lend_both(
    alloc: Global,
    kind: u32,
    args: List<i64>,
    sets: List<i64>,
    cells: Vec<i64>,
    at: u32,
    fires: bool,
) -> Result<Value, Trouble>
    requires kernel { HasKernel kind (length args) 1 1 (length sets) }
    requires at { at ≤ length cells.items }
{
    let size = RoomSize {
        inputs: 1,
        outputs: 1,
        args: 0,
    };
    let room = Room::start(alloc, size)?;
    let (left, right) = Lease::from_vec(cells).split(at);
    let mut frame = frame_over(room, kind, args, sets, left, right);
    let fired = fire_if(fires, &mut frame);
    let lent = frame.take_back();
    let parts = parts_text(alloc, &lent);
    let Lent {
        kind: _,
        args: _,
        inputs,
        outputs,
        sets: _,
    } = Box::into_inner(lent);
    let cells = only(inputs).join(only(outputs)).into_vec();
    let parts = parts?;
    let outcome = outcome_of(fired);
    answer_in(
        alloc,
        format!(in alloc; "[{outcome:?}, {parts}, {cells:?}]"),
    )
}

/// What the row's kernel gives over two leases of one block, which are taken back and joined: the row has its arguments,
/// its sets, the cells and the place of the cut. With `unfired` the frame is only lent and taken back.
pub fn lent(alloc: Global, row: &Value) -> Result<Value, Trouble> {
    let kind = place_of(word(row, "kernel")?);
    let at = small(row, "at")?;
    let args = List::new(numbers(alloc, row, "args")?);
    let sets = List::new(numbers(alloc, row, "sets")?);
    let cells = numbers(alloc, row, "cells")?;
    if at as usize > cells.len() || sets.items().len() > 1_000_000 {
        return Err(Trouble::Member("at"));
    }
    if !has_kernel(kind, args.items().len(), 1, 1, sets.items().len() as u32) {
        return Err(Trouble::Member("kernel"));
    }
    let fires = row.get("unfired").is_none();
    lend_both(alloc, kind, args, sets, cells, at, fires)
}
