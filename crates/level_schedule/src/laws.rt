// A law of the definitions, for whoever proves something above them. The function does nothing; its contract is the law.
ghost use Rattle.sdf_level.specs.View.{LevelView};
ghost use Rattle.sdf_level.specs.Invariants.{IsLevel};
ghost use Rattle.level_schedule.specs.Laws.{HasAnswer};

/// Every level has a schedule, or a fault and then no schedule, whether or not there is memory to work it out.
pub fn schedules_exist()
    ensures { (level : LevelView) → IsLevel level → HasAnswer level }
{}
