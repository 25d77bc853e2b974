// The slot of a worker's room, in which the frames of nodes are made.
ghost use Rattle.std.specs.Prelude.{◌≡◌, None, Some};
ghost use Rattle.kernel_gate.specs.declared.room.RoomSize.{RoomSize as Size};
ghost use Rattle.graph_firing.specs.Rooms.{room_after};

use kernel_gate::Room;
use std::mem;

/// Takes the room out of a slot.
pub(crate) fn take_room(slot: &mut Option<Room>) -> Room
    requires { (size : Size) × (slot.old ≡ Some size) }
    ensures taken { slot.old ≡ Some result }
    ensures rest { slot.new ≡ None }
{
    match mem::replace(slot, None) {
        Some(room) => room,
        None => unreachable!(),
    }
}

/// Puts a room back into a slot. Where one lies there, the room that comes back is given up.
pub(crate) fn put_room(slot: &mut Option<Room>, room: Room)
    ensures { slot.new ≡ room_after slot.old room }
{
    if slot.is_some() {
        room.end();
    } else {
        match mem::replace(slot, Some(room)) {
            None => {}
            Some(_) => unreachable!(),
        }
    }
}
