// Laws of the definitions, for whoever proves something above them. The functions do nothing; their contracts are the laws.
ghost use Rattle.std.specs.Prelude.{◌≡◌, ◌<◌, ℤ, ℕ, Option, Some, None, List as Seq, [], length, slice_get, slice_index_or, IsSome};
ghost use Rattle.pisdf_model.specs.Range.{InRange};
ghost use Rattle.pisdf_model.specs.WellFormed.{WellFormed};
ghost use Rattle.pisdf_model.specs.declared.actor.Actor.{Actor};
ghost use Rattle.pisdf_model.specs.declared.graph.Graph.{Graph};
ghost use Rattle.pisdf_model.specs.declared.graph.Graphs.{Graphs};
ghost use Rattle.pisdf_model.specs.declared.param.Param.{Param};
ghost use Rattle.param_resolver.specs.Assignment.{IsAssignment, param_faults, values_of};
ghost use Rattle.param_resolver.specs.EarlyCheck.{check_by, check_of};
ghost use Rattle.param_resolver.specs.LevelOf.{AreOfActor, AreOneEach, IsChildSound, level_faults};
ghost use Rattle.param_resolver.specs.Numbering.{acting};
ghost use Rattle.param_resolver.specs.Resolvable.{AreResolvable};
ghost use Rattle.param_resolver.specs.Settled.{AreOrdered};
ghost use Rattle.param_resolver.specs.Sound.{AreSupplied};

/// Parameters none of which depends on itself have exactly one assignment, whatever they are supplied with.
pub fn one_assignment()
    ensures is { (params : Seq Param) (supplied : Seq (Option ℤ)) → AreOrdered params → IsAssignment params supplied (values_of params supplied) }
    ensures only { (params : Seq Param) (supplied values : Seq (Option ℤ)) → AreOrdered params → IsAssignment params supplied values → values ≡ values_of params supplied }
{}

/// Well-formed graphs, whose numbers refer to parts, have what is asked of one graph: no parameter depends on itself, and
/// every expression names parameters that are there.
pub fn graphs_resolvable()
    ensures { (graphs : Graphs) → InRange graphs → WellFormed graphs → AreResolvable graphs.graphs }
{}

/// The early check of a graph, in well-formed graphs, takes those of the graphs that its configuration actors name: there
/// is no end to the nesting in it.
pub fn early_unfolds()
    ensures { (graphs : Graphs) (place : ℕ) (inherited : Seq ℤ) → InRange graphs → WellFormed graphs → place < length graphs.graphs → check_of graphs.graphs place inherited ≡ check_by (check_of graphs.graphs) graphs.graphs (slice_get graphs.graphs place) inherited }
{}

/// Parameters all of which are supplied with what their kinds want, and none of which has a fault, have all a value.
pub fn all_sound()
    ensures { (params : Seq Param) (supplied : Seq (Option ℤ)) → AreOrdered params → AreSupplied params supplied → param_faults params supplied ≡ [] → (q : ℕ) → q < length params → IsSome (slice_index_or (values_of params supplied) q None) }
{}

/// What the lists of a level's actors have at a number is that of the actor with this number, and they have one entry for
/// each actor. Where the rates of a level have no fault, the early check of no graph that its actors name has one.
pub fn level_by_actor()
    ensures each { (graphs : Seq Graph) (g : Graph) (values : Seq ℤ) (b : ℕ) (actor : Actor) → slice_get (acting g) b ≡ Some actor → AreOfActor graphs g values b actor }
    ensures many { (graphs : Seq Graph) (g : Graph) (values : Seq ℤ) → AreOneEach graphs g values }
    ensures sound { (graphs : Seq Graph) (g : Graph) (values : Seq ℤ) (b : ℕ) (actor : Actor) → level_faults graphs g values ≡ [] → slice_get (acting g) b ≡ Some actor → IsChildSound graphs values actor.body }
{}
