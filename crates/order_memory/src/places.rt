// Where each node stands in a line.
ghost use Rattle.std.specs.Prelude.{◌≡◌, ◌≢◌, ℕ, ◌<◌, ◌≤◌, ◌^◌, length, slice_index, All, IfOk};

use std::alloc::{AllocError, Global};

/// The place of each node in the line.
pub(crate) fn places_of(alloc: Global, nodes: u32, line: &[u32]) -> Result<Vec<u32>, AllocError>
    requires there { All (λ n. n < nodes) line.now }
    requires once { (j k : ℕ) → j < k → k < length line.now → slice_index line.now j ≢ slice_index line.now k }
    requires long { length line.now ≤ nodes }
    ensures long { IfOk result (λ places. length places.items ≡ nodes) }
    ensures each { IfOk result (λ places. (i : ℕ) → i < length line.now → slice_index places.items (slice_index line.now i) ≡ i) }
{
    let mut places = vec![in alloc; 0u32; nodes as usize]?;
    for (place, node) in line.iter().enumerate() {
        places[*node as usize] = place as u32;
    }
    Ok(places)
}
