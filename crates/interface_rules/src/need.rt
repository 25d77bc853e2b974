ghost use Rattle.std.specs.Prelude.{◌≤◌, ◌<◌, ◌↔◌, ◌≡◌};
ghost use Rattle.interface_rules.specs.Served.{IsLeastNeed};

use sdf_level::{BASE_ENTRY_LIMIT, RATE_LIMIT};

/// The least number, of at least 1, of rounds of `base` firings at this rate that move as many tokens as `outside`.
pub(crate) fn least_need(outside: u32, base: u32, rate: u32) -> u32
    requires some { 1 ≤ base }
    requires base { base ≤ BASE_ENTRY_LIMIT }
    requires rate { rate ≤ RATE_LIMIT }
    requires outside { outside ≤ RATE_LIMIT }
    requires agree { (outside ≡ 0) ↔ (rate ≡ 0) }
    ensures { IsLeastNeed outside base rate result }
{
    if outside == 0 {
        return 1;
    }
    outside.div_ceil(base * rate)
}
