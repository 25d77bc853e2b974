ghost use Rattle.std.specs.Prelude.{◌≡◌, ◌≢◌, ℕ, List, OnOk, IsSome};
ghost use Rattle.std.specs.BTreeMap.{get_by_text};
ghost use Rattle.outer_world.specs.Counts.{count_of, pairs_of};
ghost use Rattle.outer_world.specs.Faults.{RisesByOne};

use std::alloc::{AllocError, Global};
use std::collections::BTreeMap;

/// How often a load of each name failed.
pub(crate) type Counts = BTreeMap<String, u64>;

/// A count after one more fault: it stands at its last value.
pub(crate) fn next_count(count: u64) -> u64
    ensures { RisesByOne count result }
{
    count.saturating_add(1)
}

/// Makes room for the count of a name, so that `raise` takes no memory.
#[tactic(auto, using(std::proofs::lemmas::Map::Text::text_keys))]
pub(crate) fn make_room(alloc: Global, counts: &mut Counts, name: &str) -> Result<(), AllocError>
    ensures there { OnOk result (IsSome (get_by_text counts.new name.now)) }
    ensures same { (other : List ℕ) → count_of (pairs_of counts.new) other ≡ count_of (pairs_of counts.old) other }
{
    if counts.get(name).is_none() {
        let key = String::from_str(alloc, name)?;
        counts.insert(key, 0)?;
    }
    Ok(())
}

/// Counts one more fault of a name, for whose count there is room.
#[tactic(auto, using(std::proofs::lemmas::Map::Text::text_keys))]
pub(crate) fn raise(counts: &mut Counts, name: &str)
    requires { IsSome (get_by_text counts.old name.now) }
    ensures rises { RisesByOne (count_of (pairs_of counts.old) name.now) (count_of (pairs_of counts.new) name.now) }
    ensures others { (other : List ℕ) → other ≢ name.now → count_of (pairs_of counts.new) other ≡ count_of (pairs_of counts.old) other }
{
    if let Some(count) = counts.get_mut(name) {
        *count = next_count(*count);
    }
}
