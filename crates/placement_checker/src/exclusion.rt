ghost use Rattle.std.specs.Prelude.{ℕ, ◌≡◌, ◌≢◌, ◌*◌, ◌<◌, ◌≤◌, ◌↔◌, length, IsTrue};
ghost use Rattle.placement_checker.specs.Placed.{Relates};
ghost use Rattle.placement_checker.specs.Rows.{IsRowOf};

use crate::row::put_bit;

/// Which buffers may never share cells: the edges of a memory exclusion graph (Desnos et al.).
pub trait Exclusion {
    ghost range: { Self → ℕ };

    ghost excludes: { Self → ℕ → ℕ → Type 0 };

    /// How many buffers there are: they have the numbers below it.
    fn range(&self) -> u32
        ensures { result ≡ range self.now };

    /// Whether two different buffers, the lesser number first, exclude each other.
    fn excludes(&self, e: u32, f: u32) -> bool
        requires e { e < range self.now }
        requires f { f < range self.now }
        ensures { IsTrue result ↔ excludes self.now e f };

    /// Whether two different buffers exclude each other, in either order.
    fn relates(&self, e: u32, f: u32) -> bool
        requires e { e < range self.now }
        requires f { f < range self.now }
        requires different { f ≢ e }
        ensures { IsTrue result ↔ Relates (excludes self.now) e f }
    {
        if e < f {
            self.excludes(e, f)
        } else {
            self.excludes(f, e)
        }
    }

    /// Writes which other buffers exclude a buffer, as a row of bits, 64 bits to a word, the lowest first: bit `f` is set
    /// where `f` does, and cleared where it doesn't. Its own bit, and those of no buffer, may be set or cleared.
    fn write_row(&self, e: u32, row: &mut [u64])
        requires e { e < range self.now }
        requires long { range self.now ≤ 64 * length row.old }
        ensures { IsRowOf (excludes self.now) (range self.now) e row.new }
    {
        for f in 0..self.range() {
            let on = f == e || self.relates(e, f);
            put_bit(row, f as usize, on);
        }
    }
}
