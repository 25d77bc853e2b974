// The first count of a level that is over its limit.
ghost use Rattle.std.specs.Prelude.{◌≡◌, length, IfSome, IfNone};
ghost use Rattle.sdf_level.specs.Limits.{IsWithinLimits};
ghost use Rattle.level_schedule.specs.Schedules.{IsFirstOver, count_of};

use crate::counting::{count_firings, count_links, count_tokens};
use crate::unscheduled::What;
use sdf_level::{FIRINGS_LIMIT, LINKS_LIMIT, Level, TOKENS_LIMIT};

/// A count that is over its limit.
#[derive(Clone, Copy, Debug, Drop)]
pub(crate) struct Excess {
    pub(crate) what: What,
    pub(crate) value: u64,
}

/// The first of firings, links and tokens that is over its limit.
pub(crate) fn first_over(level: &Level, counts: &[u32]) -> Option<Excess>
    requires { length counts.now ≡ level.now.actors }
    ensures within { IfNone result (IsWithinLimits level.now counts.now) }
    ensures over { IfSome result (λ e. IsFirstOver e.what level.now counts.now) }
    ensures value { IfSome result (λ e. e.value ≡ count_of e.what level.now counts.now) }
{
    let firings = count_firings(level, counts);
    if firings > FIRINGS_LIMIT {
        return Some(Excess {
            what: What::Firings,
            value: firings,
        });
    }
    let links = count_links(level, counts);
    if links > LINKS_LIMIT {
        return Some(Excess {
            what: What::Links,
            value: links,
        });
    }
    let tokens = count_tokens(level, counts);
    if tokens > TOKENS_LIMIT {
        return Some(Excess {
            what: What::Tokens,
            value: tokens,
        });
    }
    None
}
