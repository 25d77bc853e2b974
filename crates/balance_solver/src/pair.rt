ghost use Rattle.std.specs.Prelude.{◌<◌};
ghost use Rattle.balance_solver.specs.Pair.{IsLeastPair};

/// The least `(x, y)` with `x * put = y * taken`, by Euclid's division. It is the reduced fraction of `taken` and `put`.
pub(crate) fn least_pair(put: u64, taken: u64) -> (u64, u64)
    requires put { 0 < put }
    requires taken { 0 < taken }
    ensures { IsLeastPair put taken result.0 result.1 }
{
    let times = put / taken;
    let rest = put % taken;
    if rest == 0 {
        return (1, times);
    }
    let (y, x) = least_pair(taken, rest);
    (x, y + x * times)
}
