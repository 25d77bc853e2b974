// One row of bits, 64 bits to a word.
ghost use Rattle.std.specs.Prelude.{ℕ, ◌≡◌, ◌≢◌, ◌/◌, ◌<◌, ◌↔◌, length, IsTrue};
ghost use Rattle.placement_checker.specs.Rows.{RowHas};

const BITS: usize = u64::BITS as usize;

/// Whether a row of bits, 64 bits to a word, the lowest first, has the bit.
pub fn has_bit(row: &[u64], bit: usize) -> bool
    requires { bit / 64 < length row.now }
    ensures { IsTrue result ↔ RowHas row.now bit }
{
    row[bit / BITS] >> (bit % BITS) & 1 == 1
}

/// Sets or clears one bit.
pub(crate) fn put_bit(row: &mut [u64], bit: usize, on: bool)
    requires { bit / 64 < length row.old }
    ensures long { length row.new ≡ length row.old }
    ensures put { RowHas row.new bit ↔ IsTrue on }
    ensures others { (other : ℕ) → other ≢ bit → (RowHas row.new other ↔ RowHas row.old other) }
{
    if on {
        row[bit / BITS] |= 1 << (bit % BITS);
    } else {
        row[bit / BITS] &= !(1 << (bit % BITS));
    }
}
