use balance_solver::Unsolved;
use firing_order::Stuck;
use interface_rules::InterfaceFault;
use sdf_level::List;
use std::alloc::AllocError;
use thiserror::Error;

/// What a job counts against a limit.
#[derive(Clone, Copy, Debug, PartialEq, Eq, Drop)]
pub enum What {
    /// The firings of all actors, at most `FIRINGS_LIMIT`.
    Firings,
    /// Over the links, the firings of the tail and of the head, and 2; at most `LINKS_LIMIT`.
    Links,
    /// Over the links, the tokens that the firings put or take, and the delay; at most `TOKENS_LIMIT`.
    Tokens,
}

/// Why a level has no schedule.
#[derive(Debug, Drop, Error)]
pub enum Unscheduled {
    /// There is no repetition vector: no base vector, or a link with a source or sink that has exactly one rate 0.
    #[error("the rates have no repetition vector")]
    Rates,
    /// The first of firings, links and tokens whose count, `value`, is over its limit.
    #[error("a count of {value} is over its limit")]
    Limit { what: What, value: u64 },
    /// No order fires every actor its count. For each actor, how many of its firings are left when no actor can fire any
    /// more.
    #[error("no order fires every actor its count")]
    Deadlock { left: List<u32> },
    /// There was no memory.
    #[error("out of memory")]
    Memory,
}

impl From<Unsolved> for Unscheduled {
    ghost use Rattle.std.specs.Prelude.{◌≡◌};
    ghost use Rattle.level_schedule.specs.Causes.{of_unsolved};

    ghost from_gives = { λ cause fault. fault ≡ of_unsolved cause };

    fn from(cause: Unsolved) -> Unscheduled {
        match cause {
            Unsolved::NoVector => Unscheduled::Rates,
            Unsolved::Memory => Unscheduled::Memory,
        }
    }
}

impl From<InterfaceFault> for Unscheduled {
    ghost use Rattle.std.specs.Prelude.{◌≡◌};
    ghost use Rattle.level_schedule.specs.Causes.{of_mismatch};

    ghost from_gives = { λ cause fault. fault ≡ of_mismatch cause };

    fn from(cause: InterfaceFault) -> Unscheduled {
        match cause {
            InterfaceFault::Mismatch { .. } => Unscheduled::Rates,
            InterfaceFault::Memory => Unscheduled::Memory,
        }
    }
}

impl From<Stuck> for Unscheduled {
    ghost use Rattle.std.specs.Prelude.{◌≡◌};
    ghost use Rattle.level_schedule.specs.Causes.{of_stuck};

    ghost from_gives = { λ cause fault. fault ≡ of_stuck cause };

    fn from(cause: Stuck) -> Unscheduled {
        match cause {
            Stuck::Left(left) => Unscheduled::Deadlock { left },
            Stuck::Memory => Unscheduled::Memory,
        }
    }
}

impl From<AllocError> for Unscheduled {
    ghost use Rattle.std.specs.Prelude.{◌≡◌};
    ghost use Rattle.level_schedule.specs.declared.unscheduled.Unscheduled.TheVariants.{Memory};

    ghost from_gives = { λ _ fault. fault ≡ Memory };

    fn from(_cause: AllocError) -> Unscheduled {
        Unscheduled::Memory
    }
}
