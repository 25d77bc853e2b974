// Rows of bits in one slice of words, 64 bits to a word, `width` words to a row.
ghost use Rattle.std.specs.Prelude.{ℕ, ◌≡◌, ◌+◌, ◌*◌, ◌/◌, ◌<◌, ◌≤◌, ◌↔◌, length, IsTrue};
ghost use Rattle.memory_exclusion.specs.Bits.{HasBit, AddsBit, DropsBit, AddsRow, HasNeither};

const BITS: usize = u64::BITS as usize;

/// Whether this row has the bit.
pub(crate) fn has_bit(words: &[u64], width: usize, row: usize, bit: usize) -> bool
    requires { row * width + bit / 64 < length words.now }
    ensures { IsTrue result ↔ HasBit words.now width row bit }
{
    placement_checker::has_bit(&words[row * width..], bit)
}

/// Sets one bit of one row.
pub(crate) fn add_bit(words: &mut [u64], width: usize, row: usize, bit: usize)
    requires row { row * width + width ≤ length words.old }
    requires bit { bit < 64 * width }
    ensures { AddsBit width words.old words.new row bit }
{
    words[row * width + bit / BITS] |= 1 << (bit % BITS);
}

/// Clears one bit of one row.
pub(crate) fn drop_bit(words: &mut [u64], width: usize, row: usize, bit: usize)
    requires row { row * width + width ≤ length words.old }
    requires bit { bit < 64 * width }
    ensures { DropsBit width words.old words.new row bit }
{
    words[row * width + bit / BITS] &= !(1 << (bit % BITS));
}

/// Sets in one row all bits of another.
pub(crate) fn add_row(words: &mut [u64], width: usize, row: usize, other: usize)
    requires row { row * width + width ≤ length words.old }
    requires other { other * width + width ≤ length words.old }
    ensures { AddsRow width words.old words.new row other }
{
    let to = row * width;
    let from = other * width;
    for k in 0..width {
        words[to + k] |= words[from + k];
    }
}

/// Writes into a row the bits that neither of two rows has.
pub(crate) fn write_neither(
    width: usize,
    one: &[u64],
    one_row: usize,
    other: &[u64],
    other_row: usize,
    row: &mut [u64],
)
    requires one { one_row * width + width ≤ length one.now }
    requires other { other_row * width + width ≤ length other.now }
    requires row { width ≤ length row.old }
    ensures { HasNeither width one.now one_row other.now other_row row.new }
{
    let one_start = one_row * width;
    let other_start = other_row * width;
    for k in 0..width {
        row[k] = !one[one_start + k] & !other[other_start + k];
    }
}
