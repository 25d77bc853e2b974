// Who makes an iteration of a run: one thread, by queues, or many workers.
ghost use Rattle.std.specs.Prelude.{◌<◌, ◌≤◌};
ghost use Rattle.std.specs.Arc.{arc_value};
ghost use Rattle.kernel_gate.specs.Signed.{unnamed};
ghost use Rattle.pisdf_meaning.specs.Sound.{AreValidFor};
ghost use Rattle.quiescent_driver.specs.Carrying.{Suits};
ghost use Rattle.quiescent_driver.specs.Making.{IsMade, MayBegin};

use crate::carried::Carried;
use crate::iteration::run_iteration_by;
use crate::stop::Stop;
use board_journal::Journal;
use kernel_gate::Gate;
use pisdf_meaning::{Delays, Iteration, plain_iteration, runnable, sizes_kept};
use pisdf_model::Graphs;
use sdf_level::List;
use std::alloc::Global;
use std::sync::{Arc, Wait};
use std::thread::Threads;

/// What the making of an iteration comes to.
pub(crate) type Made = Result<Iteration, Stop>;

/// One thread makes an iteration by queues, whose early check finds nothing, on the tokens that it takes. It leaves its state
/// for the next.
pub(crate) fn make_by_queues<K: Gate>(
    alloc: Global,
    graphs: &Arc<Graphs>,
    delays: &mut Delays,
    ins: &[List<i64>],
    gate: &K,
) -> Made
    requires valid { AreValidFor (unnamed (K.kernels gate.now)) (arc_value graphs.now) }
    requires begins { MayBegin (arc_value graphs.now) delays.old.lists ins.now }
    ensures { IsMade (arc_value graphs.now) delays.old.lists ins.now delays.new.lists result }
{
    runnable();
    sizes_kept();
    // Its clause says that the kernels give outputs of the lengths that they are asked for.
    let _signatures = gate.signatures();
    match plain_iteration(alloc, graphs, delays, ins, gate) {
        Ok(iteration) => Ok(iteration),
        Err(fault) => Err(Stop::from(fault)),
    }
}

/// As `make_by_queues`, by so many workers, with what the iterations before it have left. Their steps take no memory.
pub(crate) fn make_by_workers<K: Gate + Sync, R: Threads + Wait + Sync>(
    rt: &R,
    alloc: Global,
    graphs: &Arc<Graphs>,
    delays: &mut Delays,
    ins: &[List<i64>],
    workers: u32,
    carried: &mut Carried,
    gate: &K,
) -> Made
    requires valid { AreValidFor (unnamed (K.kernels gate.now)) (arc_value graphs.now) }
    requires begins { MayBegin (arc_value graphs.now) delays.old.lists ins.now }
    requires some { 0 < workers }
    requires few { workers ≤ 16 }
    requires levels { Suits (arc_value graphs.now) carried.old }
    ensures made { IsMade (arc_value graphs.now) delays.old.lists ins.now delays.new.lists result }
    ensures levels { Suits (arc_value graphs.now) carried.new }
{
    match run_iteration_by(
        rt,
        alloc,
        graphs,
        delays,
        ins,
        workers,
        carried,
        gate,
        Journal::unreadable(),
    ) {
        Ok((iteration, _journal)) => Ok(iteration),
        Err(fault) => Err(Stop::from(fault)),
    }
}
