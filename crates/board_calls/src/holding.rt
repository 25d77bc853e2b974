// What each worker holds, in a list.
ghost use Rattle.std.specs.Prelude.{◌≡◌, ◌<◌, length, replicate, slice_index_or, slice_set, IfOk};
ghost use Rattle.board_calls.specs.Holding.{held_by};

use crate::held::Held;
use case_rows::Trouble;
use firing_board::Claim;
use std::alloc::Global;
use std::mem;

/// What a worker's claim gave it.
pub(crate) fn held_by(claim: Claim) -> Held
    ensures { result ≡ held_by claim }
{
    match claim {
        Claim::Fire(ticket, frame) => Held::Fire(ticket, frame),
        Claim::Configure(ticket, frame) => Held::Configure(ticket, frame),
        Claim::Copy(ticket, node, frame) => Held::Copy(ticket, node, frame),
        Claim::Compile(ticket, task) => Held::Compile(ticket, task),
        Claim::Wait | Claim::Finished | Claim::Starved => Held::Nothing,
    }
}

/// Takes from a worker what it holds.
pub(crate) fn take(held: &mut Vec<Held>, worker: u32) -> Held
    requires { worker < length held.old.items }
    ensures given { result ≡ slice_index_or held.old.items worker Held.Nothing }
    ensures rest { held.new.items ≡ slice_set held.old.items worker Held.Nothing }
{
    mem::replace(&mut held[worker as usize], Held::Nothing)
}

/// Gives something to a worker that holds nothing.
pub(crate) fn put(held: &mut Vec<Held>, worker: u32, next: Held)
    requires inside { worker < length held.old.items }
    requires nothing { slice_index_or held.old.items worker Held.Nothing ≡ Held.Nothing }
    ensures { held.new.items ≡ slice_set held.old.items worker next }
{
    match mem::replace(&mut held[worker as usize], next) {
        Held::Nothing => {}
        _other => unreachable!(),
    }
}

/// So many workers, none of whom holds anything.
pub(crate) fn idle(alloc: Global, workers: u32) -> Result<Vec<Held>, Trouble>
    ensures { IfOk result (λ held. held.items ≡ replicate workers Held.Nothing) }
{
    let mut held = Vec::new(alloc);
    match held.reserve(workers as usize) {
        Ok(()) => {}
        Err(_) => {
            held.destroy_empty();
            return Err(Trouble::Memory);
        }
    }
    for _ in 0..workers {
        held.push_reserved(Held::Nothing);
    }
    Ok(held)
}
