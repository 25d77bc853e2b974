// Arrows among places: a list for each place, of the places to which arrows lead from it.
ghost use Rattle.std.specs.Prelude.{ℕ, ◌≡◌, ◌<◌, ◌↔◌, length, slice_index_or, false, All, IfOk, IfSome, OnOk};
ghost use Rattle.std.specs.List.{filter, range_with_len};
ghost use Rattle.pisdf_model.specs.Arrows.{LeadsInside, IsReached, IsMarked, leads, on_cycles};
ghost use Rattle.pisdf_model.specs.Details.{first};
ghost use Rattle.pisdf_model.specs.Search.{Notes};

use crate::components::{acyclic_front, components};
use sdf_level::List;
use std::alloc::{AllocError, Global};

/// Marks the places, and notes those of them that weren't marked before.
fn note(places: &[u32], marks: &mut [bool], noted: &mut Vec<u32>) -> Result<(), AllocError>
    requires { All (λ w. w < length marks.old) places.now }
    ensures { OnOk result (Notes places.now marks.old noted.old.items marks.new noted.new.items) }
{
    for place in places {
        if !marks[*place as usize] {
            marks[*place as usize] = true;
            noted.push(*place)?;
        }
    }
    Ok(())
}

/// Marks of the starts, and of the places to which some path leads from one of them.
pub(crate) fn reached(
    alloc: Global,
    arrows: &[List<u32>],
    starts: &[u32],
) -> Result<Vec<bool>, AllocError>
    requires inside { LeadsInside arrows.now }
    requires starts { All (λ w. w < length arrows.now) starts.now }
    ensures long { IfOk result (λ marks. length marks.items ≡ length arrows.now) }
    ensures exact { IfOk result (λ marks. (w : ℕ) → IsMarked marks.items w ↔ IsReached arrows.now starts.now w) }
{
    let mut marks = vec![in alloc; false; arrows.len()]?;
    let mut noted = Vec::new(alloc);
    note(starts, &mut marks, &mut noted)?;
    while let Some(place) = noted.pop() {
        note(arrows[place as usize].items(), &mut marks, &mut noted)?;
    }
    Ok(marks)
}

/// Whether some path leads from a place back to it.
fn is_on_cycle(alloc: Global, arrows: &[List<u32>], place: usize) -> Result<bool, AllocError>
    requires inside { LeadsInside arrows.now }
    requires place { place < length arrows.now }
    ensures { IfOk result (λ found. found ≡ leads arrows.now place place) }
{
    let marks = reached(alloc, arrows, arrows[place].items())?;
    Ok(marks[place])
}

/// The first place from which some path leads back to it.
pub(crate) fn first_on_cycle(
    alloc: Global,
    arrows: &[List<u32>],
) -> Result<Option<usize>, AllocError>
    requires { LeadsInside arrows.now }
    ensures first { IfOk result (λ place. place ≡ first (on_cycles arrows.now)) }
    ensures inside { IfOk result (λ place. IfSome place (λ v. v < length arrows.now)) }
{
    let components = components(alloc, arrows)?;
    for place in acyclic_front(arrows, &components)..arrows.len() {
        if is_on_cycle(alloc, arrows, place)? {
            return Ok(Some(place));
        }
    }
    Ok(None)
}

/// The first place that is marked.
pub(crate) fn first_marked(marks: &[bool]) -> Option<usize>
    ensures first { result ≡ first (filter (λ v. slice_index_or marks.now v false) (range_with_len 0 (length marks.now))) }
    ensures inside { IfSome result (λ v. v < length marks.now) }
{
    for place in 0..marks.len() {
        if marks[place] {
            return Some(place);
        }
    }
    None
}
