// One iteration of a run.
ghost use Rattle.std.specs.Prelude.{◌≡◌, ◌⊎◌, ℤ, List as Seq, [], Ok, Err, IfOk, IfErr, OnErr, slice_get};
ghost use Rattle.kernel_gate.specs.Signed.{unnamed};
ghost use Rattle.param_resolver.specs.EarlyCheck.{early_faults, early_of};
ghost use Rattle.param_resolver.specs.declared.level_set.LevelSet.{LevelSet as SetOfLevel};
ghost use Rattle.pisdf_model.specs.Nesting.{nesting_limit};
ghost use Rattle.pisdf_model.specs.Ports.{inherited_count};
ghost use Rattle.pisdf_model.specs.Valid.{AreValid};
ghost use Rattle.pisdf_meaning.specs.Endings.{IfRefused};
ghost use Rattle.pisdf_meaning.specs.Run.{IterationEnds, IterationGives, top_firing};
ghost use Rattle.pisdf_meaning.specs.Sound.{AreRunnable, AreValidFor};
ghost use Rattle.pisdf_meaning.specs.TopLevel.{IsTopLevel, TopLevelRefused};
ghost use Rattle.pisdf_meaning.specs.declared.outcome.Iteration.{Iteration as Outcome};
ghost use Rattle.pisdf_meaning.specs.declared.refusal.Refusal.{Refusal as Cause};

use crate::firing::Firing;
use crate::graph::{configure, fire_graph};
use crate::laws::one_meaning;
use crate::lists::copy_lists;
use crate::naming::copy_name;
use crate::outcome::{Delays, Iteration};
use crate::parts::parts_of;
use crate::path::Path;
use crate::refusal::PlainFault;
use crate::resolving::resolved;
use crate::soundness::runnable;
use kernel_gate::Gate;
use param_resolver::{Early, LevelSet, early};
use pisdf_model::{Graph, Graphs, MAX_NESTING};
use sdf_level::List;
use std::alloc::{AllocError, Global};

/// What is known of the top graph, whose early check finds nothing.
fn top_early(alloc: Global, graphs: &Graphs) -> Result<Early, AllocError>
    requires valid { AreValid graphs.now }
    requires none_inherited { inherited_count (slice_get graphs.now.graphs graphs.now.top) ≡ 0 }
    requires sound { early_faults graphs.now.graphs graphs.now.top [] ≡ [] }
    ensures { IfOk result (λ known. known ≡ early_of graphs.now.graphs graphs.now.top []) }
{
    // The early check has no fault, so that only memory can be wanting.
    match early(alloc, graphs, graphs.top, &[]) {
        Ok(known) => Ok(known),
        Err(_) => Err(AllocError),
    }
}

/// The firing of the top graph, which stands at a place, with these inputs and this state.
///
/// # Errors
///
/// Want of memory.
pub fn top_firing(
    alloc: Global,
    top: &Graph,
    place: u32,
    delays: &Delays,
    ins: &[List<i64>],
) -> Result<Firing, AllocError>
    ensures { IfOk result (λ firing. firing ≡ top_firing top.now place ins.now delays.now.lists) }
{
    Ok(Firing {
        path: Path::new(alloc, copy_name(alloc, &top.name)?)?,
        graph: place,
        inherited: List::new(Vec::new(alloc)),
        inputs: copy_lists(alloc, ins)?,
        state: copy_lists(alloc, delays.lists.items())?,
    })
}

/// The most graphs that may be nested in each other.
fn most_nested() -> usize
    ensures { result ≡ nesting_limit }
{
    MAX_NESTING
}

/// One iteration in one thread, of whose top graph this is known before it.
fn iterate_from<K: Gate>(
    alloc: Global,
    graphs: &Graphs,
    early: &Early,
    delays: &mut Delays,
    ins: &[List<i64>],
    gate: &K,
) -> Result<Iteration, PlainFault>
    requires valid { AreValid graphs.now }
    requires runnable { AreRunnable (unnamed (K.kernels gate.now)) graphs.now }
    requires known { early.now ≡ early_of graphs.now.graphs graphs.now.top [] }
    requires sound { early_faults graphs.now.graphs graphs.now.top [] ≡ [] }
    ensures gives { IfOk result (λ iteration. IterationGives graphs.now ins.now delays.old.lists iteration delays.new.lists) }
    ensures refused { IfErr result (IfRefused (λ refusal. IterationEnds graphs.now ins.now delays.old.lists (Err refusal))) }
    ensures unchanged { OnErr result (delays.new ≡ delays.old) }
{
    let top = &graphs.graphs.items()[graphs.top as usize];
    let firing = top_firing(alloc, top, graphs.top, delays, ins)?;
    let levels = most_nested();
    let given = fire_graph(alloc, graphs, gate, early, &firing, levels)?;
    delays.lists = given.state;
    Ok(Iteration {
        outs: given.outs,
        trace: given.trace,
    })
}

/// One iteration in one thread, which gives or is refused.
fn iterate<K: Gate>(
    alloc: Global,
    graphs: &Graphs,
    delays: &mut Delays,
    ins: &[List<i64>],
    gate: &K,
) -> Result<Iteration, PlainFault>
    requires valid { AreValidFor (unnamed (K.kernels gate.now)) graphs.now }
    requires sound { early_faults graphs.now.graphs graphs.now.top [] ≡ [] }
    ensures gives { IfOk result (λ iteration. IterationGives graphs.now ins.now delays.old.lists iteration delays.new.lists) }
    ensures refused { IfErr result (IfRefused (λ refusal. IterationEnds graphs.now ins.now delays.old.lists (Err refusal))) }
    ensures unchanged { OnErr result (delays.new ≡ delays.old) }
{
    runnable();
    let early = top_early(alloc, graphs)?;
    let end = iterate_from(alloc, graphs, &early, delays, ins, gate);
    drop(early);
    end
}

/// One iteration in one thread: a firing of the top graph (Desnos and others 2013, PiMM; Lee and Messerschmitt 1987), whose
/// early check finds nothing. `ins` has the tokens of each of its inputs, as many as the input's rate, and `delays` the
/// state that the iteration before left, which becomes the one that this iteration leaves.
///
/// # Errors
///
/// - `Refused`: the firing is refused here.
/// - `Memory`: want of memory.
///
/// Either leaves `delays` unchanged.
pub fn plain_iteration<K: Gate>(
    alloc: Global,
    graphs: &Graphs,
    delays: &mut Delays,
    ins: &[List<i64>],
    gate: &K,
) -> Result<Iteration, PlainFault>
    requires valid { AreValidFor (unnamed (K.kernels gate.now)) graphs.now }
    requires sound { early_faults graphs.now.graphs graphs.now.top [] ≡ [] }
    ensures gives { IfOk result (λ iteration. IterationGives graphs.now ins.now delays.old.lists iteration delays.new.lists) }
    ensures refused { IfErr result (IfRefused (λ refusal. IterationEnds graphs.now ins.now delays.old.lists (Err refusal))) }
    ensures unchanged { OnErr result (delays.new ≡ delays.old) }

    // Where the iteration gives something the answer is that, and where it is refused that refusal, unless there was no memory.
    ensures only_given { (iteration : Outcome) (state : Seq (Seq ℤ)) → IterationGives graphs.now ins.now delays.old.lists iteration state → ((result ≡ Ok iteration) × (delays.new.lists ≡ state)) ⊎ (result ≡ Err PlainFault.Memory) }
    ensures only_refused { (refusal : Cause) → IterationEnds graphs.now ins.now delays.old.lists (Err refusal) → (result ≡ Err (PlainFault.Refused refusal)) ⊎ (result ≡ Err PlainFault.Memory) }
{
    one_meaning();
    iterate(alloc, graphs, delays, ins, gate)
}

/// The level to which an iteration leads, of whose top graph this is known before it, or its refusal on the way.
fn lead_from<K: Gate>(
    alloc: Global,
    graphs: &Graphs,
    early: &Early,
    delays: &Delays,
    ins: &[List<i64>],
    gate: &K,
) -> Result<LevelSet, PlainFault>
    requires valid { AreValid graphs.now }
    requires runnable { AreRunnable (unnamed (K.kernels gate.now)) graphs.now }
    requires known { early.now ≡ early_of graphs.now.graphs graphs.now.top [] }
    requires sound { early_faults graphs.now.graphs graphs.now.top [] ≡ [] }
    ensures level { IfOk result (IsTopLevel graphs.now ins.now delays.now.lists) }
    ensures refused { IfErr result (IfRefused (TopLevelRefused graphs.now ins.now delays.now.lists)) }
{
    let top = &graphs.graphs.items()[graphs.top as usize];
    let firing = top_firing(alloc, top, graphs.top, delays, ins)?;
    let levels = MAX_NESTING - 1;
    let configured = configure(alloc, graphs, gate, top, early, &firing, levels)?;
    let values = resolved(alloc, graphs, top, early, &firing, &configured)?;
    parts_of(alloc, graphs, top, early, &firing, values.items())
}

/// The level to which an iteration leads, or its refusal on the way.
fn lead_to_level<K: Gate>(
    alloc: Global,
    graphs: &Graphs,
    delays: &Delays,
    ins: &[List<i64>],
    gate: &K,
) -> Result<LevelSet, PlainFault>
    requires valid { AreValidFor (unnamed (K.kernels gate.now)) graphs.now }
    requires sound { early_faults graphs.now.graphs graphs.now.top [] ≡ [] }
    ensures level { IfOk result (IsTopLevel graphs.now ins.now delays.now.lists) }
    ensures refused { IfErr result (IfRefused (TopLevelRefused graphs.now ins.now delays.now.lists)) }
{
    runnable();
    let early = top_early(alloc, graphs)?;
    let end = lead_from(alloc, graphs, &early, delays, ins, gate);
    drop(early);
    end
}

/// The level of the top graph in an iteration, once its configuration actors fired and its parameters have their values,
/// and with what its actors fire. The conditions are those of `plain_iteration`.
///
/// # Errors
///
/// - `Refused`: a configuration actor, a parameter, or a rate or argument of the level refuses the iteration here.
/// - `Memory`: want of memory.
pub fn top_level<K: Gate>(
    alloc: Global,
    graphs: &Graphs,
    delays: &Delays,
    ins: &[List<i64>],
    gate: &K,
) -> Result<LevelSet, PlainFault>
    requires valid { AreValidFor (unnamed (K.kernels gate.now)) graphs.now }
    requires sound { early_faults graphs.now.graphs graphs.now.top [] ≡ [] }
    ensures level { IfOk result (IsTopLevel graphs.now ins.now delays.now.lists) }
    ensures refused { IfErr result (IfRefused (TopLevelRefused graphs.now ins.now delays.now.lists)) }

    // Where there is such a level the answer is that, and where it is refused that refusal, unless there was no memory.
    ensures only_level { (set : SetOfLevel) → IsTopLevel graphs.now ins.now delays.now.lists set → (result ≡ Ok set) ⊎ (result ≡ Err PlainFault.Memory) }
    ensures only_refused { (refusal : Cause) → TopLevelRefused graphs.now ins.now delays.now.lists refusal → (result ≡ Err (PlainFault.Refused refusal)) ⊎ (result ≡ Err PlainFault.Memory) }
{
    lead_to_level(alloc, graphs, delays, ins, gate)
}
