// What is known of a graph before its configuration actors fire, as several owners have it.
ghost use Rattle.std.specs.Prelude.{◌≡◌, IfOk, Some, slice_get};
ghost use Rattle.std.specs.Arc.{arc_value};
ghost use Rattle.job_preparing.specs.Known.{IsKnownBy};

use crate::compiling::ReadyLevel;
use param_resolver::Early;
use std::alloc::{AllocError, Global};
use std::marker::Model;
use std::sync::Arc;

/// What is known of a graph before its configuration actors fire. Contracts see it as that.
#[derive(Drop)]
pub struct KnownEarly {
    pub(crate) from: EarlyFrom,
}

/// Where it stands.
#[derive(Drop)]
pub(crate) enum EarlyFrom {
    /// By itself.
    Alone(Arc<Early>),
    /// In the level of the graph that calls this one, by the number of the actor that does.
    Caller(Arc<ReadyLevel>, u32),
}

impl Model for KnownEarly {
    ghost use Rattle.param_resolver.specs.EarlyView.{EarlyView, early_code};
    ghost use Rattle.job_preparing.specs.Known.{IsKnown, known_view};

    ghost Value = { EarlyView };

    ghost coded = { early_code };

    ghost view = { λ k. known_view k.from };

    ghost invariant = { λ k. IsKnown k.from };
}

impl KnownEarly {
    /// This.
    ///
    /// # Errors
    ///
    /// Want of memory.
    pub(crate) fn alone(alloc: Global, early: Early) -> Result<KnownEarly, AllocError>
        ensures { IfOk result (λ known. known ≡ early) }
    {
        Ok(KnownEarly {
            from: EarlyFrom::Alone(Arc::new(alloc, early)?),
        })
    }

    /// What a level has of the graph that its actor with this number calls.
    ///
    /// # Errors
    ///
    /// Want of memory, for one more owner of the level.
    pub fn of_caller(level: &Arc<ReadyLevel>, actor: u32) -> Result<KnownEarly, AllocError>
        requires { IsKnownBy (arc_value level.now).made.set actor }
        ensures { IfOk result (λ known. slice_get (arc_value level.now).made.set.children actor ≡ Some (Some known)) }
    {
        Ok(KnownEarly {
            from: EarlyFrom::Caller(Arc::try_clone(level)?, actor),
        })
    }

    /// The same for one more owner.
    ///
    /// # Errors
    ///
    /// Want of memory.
    pub(crate) fn share(&self) -> Result<KnownEarly, AllocError>
        ensures { IfOk result (λ known. known ≡ self.now) }
    {
        let from = match &self.from {
            EarlyFrom::Alone(early) => EarlyFrom::Alone(Arc::try_clone(early)?),
            EarlyFrom::Caller(level, actor) => { EarlyFrom::Caller(Arc::try_clone(level)?, *actor) }
        };
        Ok(KnownEarly { from })
    }

    /// What is known.
    pub(crate) fn get(&self) -> &Early
        ensures { result.now ≡ self.now }
    {
        match &self.from {
            EarlyFrom::Alone(early) => early,
            EarlyFrom::Caller(level, actor) => {
                match &level.made.set.children.items()[*actor as usize] {
                    Some(early) => early,
                    None => unreachable!(),
                }
            }
        }
    }
}
