ghost use Rattle.std.specs.Prelude.{ℕ, ◌≡◌, ◌+◌, ◌^◌, ◌<◌, ◌≤◌, ◌↔◌, length, slice_index, IsOk, IfSome, IfNone, IsTrue};
ghost use Rattle.placement_checker.specs.Placed.{Overlap, Valid};
ghost use Rattle.placement_checker.specs.Clashes.{Clashes, IsFirstClash};

use crate::exclusion::Exclusion;

/// Two buffers, the lesser number first, that exclude each other and have a cell in common; where
/// both numbers are the same, a buffer that ends above the height.
#[derive(Clone, Copy, Debug, PartialEq, Eq)]
pub struct Clash {
    pub e: u32,
    pub f: u32,
}

/// Whether each buffer ends at or below `height`, and buffers that exclude each other overlap in no
/// cell. Buffer `e` has `sizes[e]` cells, from the cell `offsets[e]` on.
///
/// # Errors
///
/// The first pair `e <= f` that breaks this, by `e` and then by `f`.
pub fn check<X: Exclusion>(
    sizes: &[u32],
    exclusion: &X,
    offsets: &[u32],
    height: u32,
) -> Result<(), Clash>
    requires long { length offsets.now ≡ length sizes.now }
    requires range { length sizes.now ≤ X.range exclusion.now }
    ensures valid { IsOk result ↔ Valid sizes.now (X.excludes exclusion.now) offsets.now height }
    ensures clash { (e f : ℕ) → (result ≡ Err (record { e = e; f = f }))
        ↔ IsFirstClash sizes.now (X.excludes exclusion.now) offsets.now height e f }
{
    let range = exclusion.range() as usize;
    prove!(sizes.len() <= range);
    for e in 0..sizes.len() as u32 {
        if let Some(f) = clash_of(sizes, exclusion, offsets, height, e) {
            return Err(Clash { e, f });
        }
    }
    Ok(())
}

/// The least buffer from `e` on with which `e` clashes.
fn clash_of<X: Exclusion>(
    sizes: &[u32],
    exclusion: &X,
    offsets: &[u32],
    height: u32,
    e: u32,
) -> Option<u32>
    requires long { length offsets.now ≡ length sizes.now }
    requires range { length sizes.now ≤ X.range exclusion.now }
    requires narrow { length sizes.now < 2 ^ 32 }
    requires inside { e < length sizes.now }
    ensures found { IfSome result (λ f. (e ≤ f) × (f < length sizes.now) × Clashes sizes.now (X.excludes exclusion.now) offsets.now height e f) }
    ensures least { IfSome result (λ f. (h : ℕ) → h < f → Clashes sizes.now (X.excludes exclusion.now) offsets.now height e h → ⊥) }
    ensures none { IfNone result ((h : ℕ) → h < length sizes.now → Clashes sizes.now (X.excludes exclusion.now) offsets.now height e h → ⊥) }
{
    let (offset, size) = (offsets[e as usize], sizes[e as usize]);
    if offset as u64 + size as u64 > height as u64 {
        return Some(e);
    }
    for f in e + 1..sizes.len() as u32 {
        let (other_offset, other_size) = (offsets[f as usize], sizes[f as usize]);
        if overlap(offset, size, other_offset, other_size) && exclusion.excludes(e, f) {
            return Some(f);
        }
    }
    None
}

/// Whether two buffers, of these sizes at these offsets, have a cell in common.
fn overlap(offset: u32, size: u32, other_offset: u32, other_size: u32) -> bool
    ensures { IsTrue result ↔ Overlap offset size other_offset other_size }
{
    let start = offset.max(other_offset) as u64;
    let end = offset as u64 + size as u64;
    let other_end = other_offset as u64 + other_size as u64;
    start < end && start < other_end
}
