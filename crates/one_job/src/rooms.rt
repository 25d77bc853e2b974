// How much memory the frames of a job's nodes take.
ghost use Rattle.std.specs.Prelude.{◌≡◌};
ghost use Rattle.one_job.specs.Rooms.{IsMostArgs};

use job_compiler::Wiring;
use kernel_gate::RoomSize;
use sdf_level::List;

/// The most arguments of an actor, 0 where there is none.
fn most_args(args: &[List<i64>]) -> usize
    ensures { IsMostArgs args.now result }
{
    let mut most = 0;
    for list in args {
        let count = list.items().len();
        if count > most {
            most = count;
        }
    }
    most
}

/// Memory for the frame of any node with these ports, whose actors have these arguments.
pub(crate) fn room_size(wiring: &Wiring, args: &[List<i64>]) -> RoomSize
    ensures ports { (result.inputs ≡ wiring.now.inputs) × (result.outputs ≡ wiring.now.outputs) }
    ensures args { IsMostArgs args.now result.args }
{
    RoomSize {
        inputs: wiring.inputs,
        outputs: wiring.outputs,
        args: most_args(args),
    }
}
