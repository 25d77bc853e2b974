// Strongly connected components of places (Tarjan 1972), by which the first place on a cycle is found in one pass. No
// proof rests on how the components are found: what their numbers show is looked up at each arrow.
ghost use Rattle.std.specs.Prelude.{ℕ, ◌≡◌, ◌<◌, ◌≤◌, length, slice_index_or, false, All, IfOk, OnOk};
ghost use Rattle.pisdf_model.specs.Arrows.{LeadsInside, leads};
ghost use Rattle.pisdf_model.specs.Components.{IsSearchAmong, IsStepAmong};

use sdf_level::List;
use std::alloc::{AllocError, Global};

/// A step of a search, depth first.
#[derive(Clone, Copy)]
enum Step {
    /// It comes to a place.
    Enter(usize),
    /// It leaves a place, behind all that it entered from there.
    Leave(usize),
}

/// What a search for components has found so far. Its times count from 1.
#[derive(Drop)]
struct ComponentSearch {
    /// For each place 0 before it is entered, then the time of that; from when it is left, the earliest time that is
    /// known of a place in its component.
    times: Vec<usize>,
    /// For each place the number of its component, 0 while that isn't complete.
    components: Vec<usize>,
    /// The places that were entered and whose component isn't complete, in the order in which they were entered.
    incomplete: Vec<usize>,
    /// The steps ahead, the next one last.
    steps: Vec<Step>,
}

/// A step into each place.
fn steps_into(alloc: Global, count: usize) -> Result<Vec<Step>, AllocError>
    ensures { IfOk result (λ steps. All (IsStepAmong count) steps.items) }
{
    let mut steps = Vec::with_capacity(alloc, count)?;
    for place in 0..count {
        steps.push(Step::Enter(place))?;
    }
    Ok(steps)
}

impl ComponentSearch {
    fn new(alloc: Global, count: usize) -> Result<ComponentSearch, AllocError>
        ensures { IfOk result (IsSearchAmong count) }
    {
        Ok(ComponentSearch {
            times: vec![in alloc; 0; count]?,
            components: vec![in alloc; 0; count]?,
            incomplete: Vec::new(alloc),
            steps: steps_into(alloc, count)?,
        })
    }

    /// Comes to a place, from which arrows lead to these. One that was entered before is passed over.
    fn enter(&mut self, place: usize, to: &[u32], time: usize) -> Result<(), AllocError>
        requires among { IsSearchAmong (length self.old.times.items) self.old }
        requires place { place < length self.old.times.items }
        requires to { All (λ w. w < length self.old.times.items) to.now }
        ensures { OnOk result (IsSearchAmong (length self.old.times.items) self.new) }
    {
        if self.times[place] != 0 {
            return Ok(());
        }
        self.times[place] = time;
        self.incomplete.push(place)?;
        self.steps.push(Step::Leave(place))?;
        for next in to {
            self.steps.push(Step::Enter(*next as usize))?;
        }
        Ok(())
    }

    /// The earliest time that is known of one of these places whose component isn't complete.
    fn earliest(&self, to: &[u32]) -> usize
        requires among { IsSearchAmong (length self.now.times.items) self.now }
        requires to { All (λ w. w < length self.now.times.items) to.now }
    {
        let mut earliest = usize::MAX;
        for place in to {
            let place = *place as usize;
            if self.components[place] == 0 {
                earliest = earliest.min(self.times[place]);
            }
        }
        earliest
    }

    /// Completes the component of the places that were entered from this one on.
    fn complete(&mut self, place: usize, component: usize)
        requires { IsSearchAmong (length self.old.times.items) self.old }
        ensures { IsSearchAmong (length self.old.times.items) self.new }
    {
        while let Some(member) = self.incomplete.pop() {
            self.components[member] = component;
            if member == place {
                return;
            }
        }
    }

    /// Leaves a place, from which arrows lead to these: its component is complete unless it has an earlier place.
    fn leave(&mut self, place: usize, to: &[u32], time: usize)
        requires among { IsSearchAmong (length self.old.times.items) self.old }
        requires place { place < length self.old.times.items }
        requires to { All (λ w. w < length self.old.times.items) to.now }
        ensures { IsSearchAmong (length self.old.times.items) self.new }
    {
        let earliest = self.earliest(to);
        if earliest < self.times[place] {
            self.times[place] = earliest;
        } else {
            self.complete(place, time);
        }
    }
}

/// The most steps of a search: each place is entered at first and left once, and entered again over each arrow to it.
fn most_steps(arrows: &[List<u32>]) -> usize {
    let mut steps = arrows.len().saturating_mul(2);
    for to in arrows {
        steps = steps.saturating_add(to.items().len());
    }
    steps
}

/// The number of each place's component, in the order in which a search completes them: each arrow leads to a place
/// with the same number, which is in the same component, or with a lower one.
pub(crate) fn components(alloc: Global, arrows: &[List<u32>]) -> Result<Vec<usize>, AllocError>
    requires { LeadsInside arrows.now }
    ensures { IfOk result (λ components. length components.items ≡ length arrows.now) }
{
    let mut search = ComponentSearch::new(alloc, arrows.len())?;
    for step in 0..most_steps(arrows) {
        let time = step + 1;
        match search.steps.pop() {
            None => return Ok(search.components),
            Some(Step::Enter(place)) => search.enter(place, arrows[place].items(), time)?,
            Some(Step::Leave(place)) => search.leave(place, arrows[place].items(), time),
        }
    }
    Ok(search.components)
}

/// The highest number at these places, 0 where there are none.
fn highest(to: &[u32], components: &[usize]) -> usize
    requires { All (λ w. w < length components.now) to.now }
    ensures { All (λ w. slice_index_or components.now w 0 ≤ result) to.now }
{
    let mut highest = 0;
    for place in to {
        let component = components[*place as usize];
        if highest < component {
            highest = component;
        }
    }
    highest
}

/// How many places at the front are on no cycle, as far as the numbers of components show it: those before the first
/// place from which an arrow leads to one with the same number, where none leads to a higher number.
pub(crate) fn acyclic_front(arrows: &[List<u32>], components: &[usize]) -> usize
    requires inside { LeadsInside arrows.now }
    requires long { length components.now ≡ length arrows.now }
    ensures { (v : ℕ) → v < result → leads arrows.now v v ≡ false }
{
    let mut front = 0;
    for (place, to) in arrows.iter().enumerate() {
        let highest = highest(to.items(), components);
        if components[place] < highest {
            return 0;
        }
        if front == place && highest < components[place] {
            front = place + 1;
        }
    }
    front
}
