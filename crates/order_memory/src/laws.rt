// What holds of every ordered run.
ghost use Rattle.std.specs.Prelude.{◌≡◌, ℕ, List, length};
ghost use Rattle.memory_exclusion.specs.Paths.{Excludes};
ghost use Rattle.placement_checker.specs.Placed.{Valid};
ghost use Rattle.order_memory.specs.Orders.{after_of};
ghost use Rattle.order_memory.specs.Runs.{Event, IsOrderedRun, LiveAreApart};

/// Does nothing. Its contract is a law: where a placement is valid with paths over the edges and the neighbours in the orders,
/// two buffers that are live at once in an ordered run overlap in no cell.
pub fn live_buffers_apart()
    ensures { (edges : List (ℕ × ℕ)) (orders : List (List ℕ)) (sizes offsets : List ℕ) (height : ℕ) (run : List Event)
        → length sizes ≡ length edges → Valid sizes (Excludes (after_of edges orders)) offsets height
        → IsOrderedRun edges orders run → LiveAreApart edges sizes offsets run }
{}
