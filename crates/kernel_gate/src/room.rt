// The memory of frames.
ghost use Rattle.std.specs.Prelude.{◌≡◌, IfOk};
ghost use Rattle.kernel_gate.specs.Rooms.{IsEmptied, size_of};

use crate::frame::Lent;
use split_block::Lease;
use std::alloc::{AllocError, Global};
use std::marker::Model;

/// For how many input ports, output ports and arguments there is memory.
#[derive(Clone, Copy, Debug, PartialEq, Eq)]
pub struct RoomSize {
    pub inputs: usize,
    pub outputs: usize,
    pub args: usize,
}

/// The memory of a frame in which nothing lies. A frame is made in it without taking more, and leaves it again. It is neither
/// `Drop` nor `Clone`: who has it hands it on, or ends it.
pub struct Room {
    lent: Box<Lent>,
}

impl Model for Room {
    ghost use Rattle.kernel_gate.specs.declared.room.RoomSize.{RoomSize};

    ghost Value = { RoomSize };

    ghost use Rattle.kernel_gate.specs.Rooms.{IsEmptied, size_of};

    ghost view = { λ r. size_of r.lent.value };

    ghost invariant = { λ r. IsEmptied r.lent.value };
}

impl Room {
    /// Memory for so many ports and arguments.
    ///
    /// # Errors
    ///
    /// Want of memory.
    pub fn start(alloc: Global, size: RoomSize) -> Result<Room, AllocError>
        ensures { IfOk result (λ r. r ≡ size) }
    {
        let args = Vec::with_capacity(alloc, size.args)?;
        // A `Vec` of leases must be spent, even where it is empty: from here on no `?` stands.
        let inputs = Vec::with_capacity(alloc, size.inputs)?;
        let outputs = match Vec::with_capacity(alloc, size.outputs) {
            Ok(outputs) => outputs,
            Err(error) => {
                inputs.destroy_empty();
                return Err(error);
            }
        };
        let lent = Lent {
            kind: 0,
            args,
            inputs,
            outputs,
            sets: Vec::new(alloc),
        };
        match Box::new(alloc, lent) {
            Ok(lent) => Ok(Room { lent }),
            Err(refused) => {
                end_lists(refused.value);
                Err(AllocError)
            }
        }
    }

    /// The lists of a frame, with nothing in them. It takes no memory.
    pub fn open(self) -> Box<Lent>
        ensures empty { IsEmptied result.value }
        ensures size { size_of result.value ≡ self }
    {
        let Room { lent } = self;
        lent
    }

    /// The room that lists are, in which nothing lies any more. It takes no memory.
    pub fn close(lent: Box<Lent>) -> Room
        requires { IsEmptied lent.value }
        ensures { result ≡ size_of lent.value }
    {
        Room { lent }
    }

    /// Gives up the memory.
    pub fn end(self) {
        let Room { lent } = self;
        end_lists(Box::into_inner(lent));
    }
}

/// Gives up lists in which nothing lies.
fn end_lists(lent: Lent)
    requires { IsEmptied lent }
{
    let Lent {
        kind: _,
        args: _,
        inputs,
        outputs,
        sets: _,
    } = lent;
    inputs.destroy_empty();
    outputs.destroy_empty();
}
