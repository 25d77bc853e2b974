// Each worker has a room, in which the frame of the node is made that it claims. So a claim takes no memory for a frame.
ghost use Rattle.std.specs.Prelude.{◌≡◌, ◌↔◌, IfOk, IsTrue, None, OnOk, Some, length, replicate};
ghost use Rattle.kernel_gate.specs.Rooms.{Suffices};
ghost use Rattle.firing_board.specs.FrameRooms.{AreAllOf, AreOf, FitsNeed, larger};

use kernel_gate::{Room, RoomSize};
use std::alloc::{AllocError, Global};
use std::mem;

/// The rooms of workers.
pub(crate) struct FrameRooms {
    /// By the worker's number. The slot is empty while the room is out with the frame of a node.
    pub(crate) slots: Vec<Option<Room>>,
    /// As much as the frame of any node of an open job takes, once a job has nodes. It only grows.
    pub(crate) size: Option<RoomSize>,
}

/// No room for any of so many workers, of which none has to make a frame yet.
pub(crate) fn no_rooms(alloc: Global, workers: u32) -> Result<FrameRooms, AllocError>
    ensures { IfOk result (λ rooms. (rooms.slots.items ≡ replicate workers None) × (rooms.size ≡ None)) }
{
    let mut slots = Vec::with_capacity(alloc, workers as usize)?;
    for _worker in 0..workers {
        slots.push_reserved(None);
    }
    Ok(FrameRooms { slots, size: None })
}

/// Puts a room into a slot, in place of one that may lie there.
fn replace_room(slot: &mut Option<Room>, room: Room)
    ensures { slot.new ≡ Some room }
{
    match mem::replace(slot, Some(room)) {
        Some(old) => old.end(),
        None => {}
    }
}

/// Makes a room of this size for each worker.
///
/// # Errors
///
/// Want of memory. Some workers have such a room then.
fn make_rooms(
    alloc: Global,
    slots: &mut Vec<Option<Room>>,
    size: RoomSize,
) -> Result<(), AllocError>
    ensures made { OnOk result (AreOf size slots.new.items) }
    ensures many { length slots.new.items ≡ length slots.old.items }
{
    for worker in 0..slots.len() {
        let room = Room::start(alloc, size)?;
        replace_room(&mut slots[worker], room);
    }
    Ok(())
}

/// Whether a room of the second size suffices where one of the first is asked for.
fn suffices(least: RoomSize, size: RoomSize) -> bool
    ensures { IsTrue result ↔ Suffices least size }
{
    least.inputs <= size.inputs && least.outputs <= size.outputs && least.args <= size.args
}

/// The least size that suffices wherever one of these two does.
fn larger(one: RoomSize, other: RoomSize) -> RoomSize
    ensures { result ≡ larger one other }
{
    RoomSize {
        inputs: one.inputs.max(other.inputs),
        outputs: one.outputs.max(other.outputs),
        args: one.args.max(other.args),
    }
}

/// Makes rooms of this size for all workers, where the frames of nodes take it now.
///
/// # Errors
///
/// Want of memory.
fn grow(alloc: Global, rooms: &mut FrameRooms, size: RoomSize) -> Result<(), AllocError>
    ensures made { OnOk result (AreAllOf size rooms.new) }
    ensures many { length rooms.new.slots.items ≡ length rooms.old.slots.items }
{
    make_rooms(alloc, &mut rooms.slots, size)?;
    rooms.size = Some(size);
    Ok(())
}

/// Makes larger rooms for all workers, where the frames of a job's nodes take more than the rooms have. Else it changes nothing.
///
/// # Errors
///
/// Want of memory.
pub(crate) fn fit_rooms(
    alloc: Global,
    rooms: &mut FrameRooms,
    need: Option<RoomSize>,
) -> Result<(), AllocError>
    ensures fits { OnOk result (FitsNeed need rooms.old rooms.new) }
    ensures many { length rooms.new.slots.items ≡ length rooms.old.slots.items }
{
    match (need, rooms.size) {
        (None, _) => Ok(()),
        (Some(need), None) => grow(alloc, rooms, need),
        (Some(need), Some(size)) => {
            if suffices(need, size) {
                Ok(())
            } else {
                grow(alloc, rooms, larger(need, size))
            }
        }
    }
}

/// Gives up the rooms.
pub(crate) fn end_rooms(rooms: FrameRooms) {
    let FrameRooms { mut slots, size: _ } = rooms;
    while let Some(slot) = slots.pop() {
        match slot {
            Some(room) => room.end(),
            None => {}
        }
    }
    slots.destroy_empty();
}
