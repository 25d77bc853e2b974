use crate::path::Path;
use level_schedule::What;
use param_expr::Name;
use param_resolver::Why;
use sdf_level::List;
use std::alloc::{AllocError, AllocFailed};

/// An actor that has firings left when no actor can fire any more.
#[derive(Drop)]
pub struct Left {
    pub name: Name,
    /// How many of its firings are left, at least 1.
    pub count: u32,
}

/// Why a firing of a graph was refused. A part of a child graph is named with the actor's name and `.` before it.
#[derive(Drop)]
pub enum Cause {
    /// A parameter has no value within its range, from `low` to `high`.
    Param {
        name: Name,
        why: Why,
        low: i64,
        high: i64,
    },
    /// A rate isn't from 0 to 262,144, or an argument has no value: `x` is an interface's rate, `a.i` that of an actor's
    /// port, and `a[0]` an actor's argument.
    Rate {
        name: Name,
        why: Why,
    },
    /// The rates have no repetition vector.
    Rates,
    /// The first of firings, links and tokens whose count, `value`, is over its limit.
    Limit {
        what: What,
        value: u64,
    },
    /// No order fires every actor its count. Each actor with firings left when none can fire any more, in file order.
    Deadlock {
        left: List<Left>,
    },
    /// A kernel faulted: the actor's name, its firing from 0, and the kernel's code (1 Overflow, 2 Division, 3 Shape,
    /// 4 Value).
    Kernel {
        actor: Name,
        firing: u32,
        code: u8,
    },
}

/// The first refusal that one thread meets, and the job that it stands in.
#[derive(Drop)]
pub struct Refusal {
    pub path: Path,
    pub cause: Cause,
}

/// Why a firing of a graph gave nothing.
#[derive(Drop)]
pub enum PlainFault {
    /// One thread is refused here.
    Refused(Refusal),
    /// There was no memory.
    Memory,
}

impl From<AllocError> for PlainFault {
    ghost use Rattle.std.specs.Prelude.{◌≡◌};
    ghost use Rattle.pisdf_meaning.specs.declared.refusal.PlainFault.TheVariants.{Memory};

    ghost from_gives = { λ _ e. e ≡ Memory };

    fn from(_error: AllocError) -> PlainFault {
        PlainFault::Memory
    }
}

impl<T: Drop> From<AllocFailed<T>> for PlainFault {
    ghost use Rattle.std.specs.Prelude.{◌≡◌};
    ghost use Rattle.pisdf_meaning.specs.declared.refusal.PlainFault.TheVariants.{Memory};

    ghost from_gives = { λ _ e. e ≡ Memory };

    fn from(_error: AllocFailed<T>) -> PlainFault {
        PlainFault::Memory
    }
}
