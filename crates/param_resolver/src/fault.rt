use crate::rates::PartFault;
use param_expr::Name;
use std::alloc::{AllocError, AllocFailed};

/// Why a number isn't what it may be.
#[derive(Clone, Copy, Debug, PartialEq, Eq)]
pub enum Why {
    /// This value lies outside its range.
    Value(i64),
    /// The value of some part of the expression lies outside `i64`.
    Overflow,
    /// A dividend is below 0, or a divisor below 1.
    Division,
}

/// Why the early check of a graph fails.
#[derive(Debug, Drop)]
pub enum EarlyFault {
    /// The parameter at this place.
    Param { param: u32, why: Why },
    /// The rate or argument of this name: `x` is that of an interface, `a.i` that of an actor's port, and `a[0]` an
    /// actor's argument.
    Rate { name: Name, why: Why },
    /// The early check of the graph that the actor at this place names.
    Child { actor: u32, fault: Box<EarlyFault> },
    /// Want of memory.
    Memory,
}

impl From<AllocError> for EarlyFault {
    ghost use Rattle.param_resolver.specs.Refusal.{TellsMemory, refusal_of};
    ghost use Rattle.std.specs.Prelude.{◌≡◌, None};

    ghost from_gives = { λ _ e. (refusal_of e ≡ None) × TellsMemory e };

    fn from(_refused: AllocError) -> EarlyFault {
        EarlyFault::Memory
    }
}

impl<T: Drop> From<AllocFailed<T>> for EarlyFault {
    ghost use Rattle.param_resolver.specs.Refusal.{TellsMemory, refusal_of};
    ghost use Rattle.std.specs.Prelude.{◌≡◌, None};

    ghost from_gives = { λ _ e. (refusal_of e ≡ None) × TellsMemory e };

    fn from(_refused: AllocFailed<T>) -> EarlyFault {
        EarlyFault::Memory
    }
}

impl From<ResolveFault> for EarlyFault {
    ghost use Rattle.param_resolver.specs.Refusal.{TellsMemory, param_refusal_of, refusal_of};
    ghost use Rattle.std.specs.Prelude.{◌≡◌};

    ghost from_gives = { λ f e. (refusal_of e ≡ param_refusal_of f) × TellsMemory e };

    fn from(fault: ResolveFault) -> EarlyFault {
        match fault {
            ResolveFault::Param { param, why } => EarlyFault::Param { param, why },
            ResolveFault::Memory => EarlyFault::Memory,
        }
    }
}

impl From<PartFault> for EarlyFault {
    ghost use Rattle.param_resolver.specs.Refusal.{TellsMemory, part_refusal_of, refusal_of};
    ghost use Rattle.std.specs.Prelude.{◌≡◌};

    ghost from_gives = { λ f e. (refusal_of e ≡ part_refusal_of f) × TellsMemory e };

    fn from(fault: PartFault) -> EarlyFault {
        match fault {
            PartFault::Rate { name, why } => EarlyFault::Rate { name, why },
            PartFault::Memory => EarlyFault::Memory,
        }
    }
}

impl From<AllocError> for LevelFault {
    ghost use Rattle.param_resolver.specs.Refusal.{TellsLevelMemory, level_refusal_of};
    ghost use Rattle.std.specs.Prelude.{◌≡◌, None};

    ghost from_gives = { λ _ e. (level_refusal_of e ≡ None) × TellsLevelMemory e };

    fn from(_refused: AllocError) -> LevelFault {
        LevelFault::Memory
    }
}

impl<T: Drop> From<AllocFailed<T>> for LevelFault {
    ghost use Rattle.param_resolver.specs.Refusal.{TellsLevelMemory, level_refusal_of};
    ghost use Rattle.std.specs.Prelude.{◌≡◌, None};

    ghost from_gives = { λ _ e. (level_refusal_of e ≡ None) × TellsLevelMemory e };

    fn from(_refused: AllocFailed<T>) -> LevelFault {
        LevelFault::Memory
    }
}

impl From<PartFault> for LevelFault {
    ghost use Rattle.param_resolver.specs.Refusal.{TellsLevelMemory, level_refusal_of, part_refusal_of};
    ghost use Rattle.std.specs.Prelude.{◌≡◌};

    ghost from_gives = { λ f e. (level_refusal_of e ≡ part_refusal_of f) × TellsLevelMemory e };

    fn from(fault: PartFault) -> LevelFault {
        match fault {
            PartFault::Rate { name, why } => LevelFault::Rate { name, why },
            PartFault::Memory => LevelFault::Memory,
        }
    }
}

/// Why the parameters of a graph have no values.
#[derive(Clone, Copy, Debug, PartialEq, Eq)]
pub enum ResolveFault {
    /// The parameter at this place.
    Param { param: u32, why: Why },
    /// Want of memory.
    Memory,
}

impl From<AllocError> for ResolveFault {
    ghost use Rattle.param_resolver.specs.declared.fault.ResolveFault.TheVariants.{Memory};
    ghost use Rattle.std.specs.Prelude.{◌≡◌};

    ghost from_gives = { λ _ e. e ≡ Memory };

    fn from(_refused: AllocError) -> ResolveFault {
        ResolveFault::Memory
    }
}

impl<T: Drop> From<AllocFailed<T>> for ResolveFault {
    ghost use Rattle.param_resolver.specs.declared.fault.ResolveFault.TheVariants.{Memory};
    ghost use Rattle.std.specs.Prelude.{◌≡◌};

    ghost from_gives = { λ _ e. e ≡ Memory };

    fn from(_refused: AllocFailed<T>) -> ResolveFault {
        ResolveFault::Memory
    }
}

/// Why a graph has no level.
#[derive(Debug, Drop)]
pub enum LevelFault {
    /// The rate or argument of this name: `a.i` is that of an actor's port, and `a[0]` an actor's argument.
    Rate { name: Name, why: Why },
    /// The early check of the graph that the actor at this place names.
    Child { actor: u32, fault: EarlyFault },
    /// Want of memory.
    Memory,
}
