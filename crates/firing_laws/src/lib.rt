//! Laws of the meaning of graphs, for whoever proves something of graphs in which one graph was changed. The functions do
//! nothing; their contracts are the laws.
#![tactic(auto)]

ghost use Rattle.std.specs.Prelude.{◌≡◌, ℕ, length, map, slice_get, Some, List as Seq};
ghost use Rattle.pisdf_model.specs.Hold.{initial};
ghost use Rattle.pisdf_model.specs.Valid.{AreValid};
ghost use Rattle.pisdf_model.specs.declared.graph.Graph.{Graph};
ghost use Rattle.pisdf_model.specs.declared.graph.Graphs.{Graphs};
ghost use Rattle.pisdf_model.specs.declared.graph.Interface.{Interface};
ghost use Rattle.pisdf_meaning.specs.declared.outcome.TraceRow.{TraceRow};
ghost use Rattle.firing_laws.specs.Alike.{ActorsMove, HoldsBelow, IsLevelAlike, with_interfaces};
ghost use Rattle.firing_laws.specs.Runs.{LevelFirings, RunsMove};
ghost use Rattle.firing_laws.specs.Moving.{AreMoved, DifferAt, FiringsMove, IsBelow, moved_row};

/// A firing of a graph depends neither on its path nor on a graph that it doesn't hold: among graphs that differ from
/// these in that one alone, and at another path, it gives the same outputs, the same state and the same exports, and row
/// for row the same trace, but that each path begins with the other path. It is so of any graphs, and over any nesting.
pub fn firings_move()
    ensures { (n : ℕ) (top : ℕ) (one other : Seq Graph) → DifferAt top one other → FiringsMove n top one other }
{}

/// So it is of one firing of an actor of a level, which may also have another number: what it gives depends on neither.
pub fn actors_move()
    ensures { (n : ℕ) (top : ℕ) (one other : Seq Graph) → DifferAt top one other → ActorsMove n top one other }
{}

/// So it is of a whole run of a level: where each firing is moved to another number, to another path and among the other
/// graphs, the run goes the same way, and the trace of each firing is the same, moved.
pub fn level_runs_move()
    ensures { (n : ℕ) (top : ℕ) (one other : LevelFirings) → RunsMove n top one other }
{}

/// There is only one trace to which a trace can be moved.
pub fn rows_moved_once()
    ensures { (path other : Seq ℕ) (rows moved : Seq TraceRow) → AreMoved path other rows moved → moved ≡ map (moved_row path other) rows }
{}

/// In valid graphs each graph that an actor names is below the graph of that actor.
pub fn graphs_below()
    ensures { (graphs : Graphs) (top : ℕ) (g : Graph) → AreValid graphs → slice_get graphs.graphs top ≡ Some g → HoldsBelow graphs.graphs top g }
{}

/// A graph that is below is so among the other graphs too.
pub fn below_there()
    ensures { (top : ℕ) (one other : Seq Graph) → DifferAt top one other → (place : ℕ) → IsBelow one top place → IsBelow other top place }
{}

/// The level of a graph depends on the number of its interfaces alone, and not on their rates, in all but the rates of its
/// sources and sinks; nor does the state with which it begins.
pub fn levels_alike()
    ensures level { (top : ℕ) (one other : Seq Graph) (g : Graph) (inputs outputs : Seq Interface) → DifferAt top one other → HoldsBelow one top g → length inputs ≡ length g.inputs
        → IsLevelAlike one other g (with_interfaces inputs outputs g) }
    ensures state { (top : ℕ) (one other : Seq Graph) (g : Graph) (inputs outputs : Seq Interface) → DifferAt top one other → HoldsBelow one top g → slice_get one top ≡ Some g
        → slice_get other top ≡ Some (with_interfaces inputs outputs g) → initial other top ≡ initial one top }
{}
