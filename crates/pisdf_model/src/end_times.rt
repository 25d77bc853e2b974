ghost use Rattle.std.specs.Prelude.{ℕ, ◌≡◌, ◌==◌, count_by, IfOk, Option as Maybe};
ghost use Rattle.std.specs.Ordering.{is_eq};
ghost use Rattle.pisdf_model.specs.EndTimes.{place_cmp, place_of, times_at};

use crate::fifo::End;
use std::alloc::{AllocError, Global};
use std::collections::BTreeMap;

/// How often ends stand at a place: an actor, if it is a port, and its number there.
pub(crate) type EndTimes = BTreeMap<(Option<usize>, usize), usize>;

fn place_of(end: &End) -> (Option<usize>, usize)
    ensures { result ≡ place_of end.now }
{
    match end {
        End::Interface(place) => (None, *place as usize),
        End::Port { actor, port } => (Some(*actor as usize), *port as usize),
    }
}

/// How often these ends stand at each place.
pub(crate) fn times_of_ends(alloc: Global, ends: &[End]) -> Result<EndTimes, AllocError>
    ensures { IfOk result (λ times. (q : Maybe ℕ × ℕ) → times_at times q ≡ count_by (λ end. is_eq (place_cmp (place_of end) q)) ends.now) }
{
    let mut times = BTreeMap::new(alloc);
    for end in ends {
        let place = place_of(end);
        let before = times.get(&place).copied().unwrap_or(0);
        times.insert(place, before + 1)?;
    }
    Ok(times)
}

/// Whether one end stands at this place.
pub(crate) fn stands_once(times: &EndTimes, actor: Option<usize>, place: usize) -> bool
    ensures { result ≡ (times_at times.now (actor, place) == 1) }
{
    times.get(&(actor, place)).copied().unwrap_or(0) == 1
}
