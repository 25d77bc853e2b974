ghost use Rattle.std.specs.Prelude.{◌≡◌, ◌≤◌};
ghost use Rattle.sdf_level.specs.Interfaces.{repeated_place, last_place};

/// The place, among the `len` tokens of a source, of the token that is read as its token `place`: a source is repeated
/// without end.
pub fn repeated_at(len: u32, place: u64) -> u32
    requires { 1 ≤ len }
    ensures { result ≡ repeated_place len place }
{
    (place % len as u64) as u32
}

/// The place, among `total` tokens written to a sink, of the first one that it keeps: it keeps the last `rate`.
pub fn kept_from(total: u64, rate: u32) -> u64
    requires { rate ≤ total }
    ensures { result ≡ last_place total rate }
{
    total - rate as u64
}
