// The critical path: a heaviest path, the one with the least numbers from the front.
ghost use Rattle.std.specs.Prelude.{◌≡◌, ◌<◌, ◌≤◌, ◌^◌, ℕ, min, length, slice_index, MatchOption, IfOk, IfSome, IfNone};
ghost use Rattle.worker_mapping.specs.Graph.{AreThere, Rise, IsPriority, graph_of, greatest};
ghost use Rattle.worker_mapping.specs.Paths.{IsHeaviestFrom};
ghost use Rattle.schedule_bound.specs.Critical.{AreNext, IsCritical};

use std::alloc::{AllocError, Global};

/// The lesser number.
fn lesser(known: Option<u32>, other: u32) -> u32
    ensures { MatchOption known (result ≡ other) (λ m. result ≡ min m other) }
{
    match known {
        Some(number) => number.min(other),
        None => other,
    }
}

/// For each node the least node at its outgoing edges that its heaviest path goes on to, if there is any.
fn next_nodes(
    alloc: Global,
    nodes: u32,
    edges: &[(u32, u32)],
    costs: &[u32],
    priority: &[u64],
) -> Result<Vec<Option<u32>>, AllocError>
    requires edges { AreThere nodes edges.now }
    requires costs { length costs.now ≡ nodes }
    requires priority { length priority.now ≡ nodes }
    requires heavy { (n : ℕ) → n < nodes → slice_index costs.now n ≤ slice_index priority.now n }
    ensures { IfOk result (λ next. AreNext nodes edges.now costs.now priority.now next.items) }
{
    let none: Option<u32> = None;
    let mut next = vec![in alloc; none; nodes as usize]?;
    for edge in edges {
        let (tail, head) = *edge;
        let t = tail as usize;
        if priority[t] - costs[t] as u64 == priority[head as usize] {
            next[t] = Some(lesser(next[t], head));
        }
    }
    Ok(next)
}

/// The greatest priority, 0 with no node.
pub(crate) fn greatest_of(priority: &[u64]) -> u64
    ensures { result ≡ greatest priority.now }
{
    let mut most = 0u64;
    for p in priority {
        most = most.max(*p);
    }
    most
}

/// The first place of a number.
fn first_place(numbers: &[u64], number: u64) -> Option<u32>
    requires { length numbers.now < 2 ^ 32 }
    ensures { MatchOption result ((n : ℕ) → n < length numbers.now → slice_index numbers.now n ≡ number → ⊥)
        (λ n. (n < length numbers.now) × (slice_index numbers.now n ≡ number) × ((k : ℕ) → k < n → slice_index numbers.now k ≡ number → ⊥)) }
{
    for (place, other) in numbers.iter().enumerate() {
        if *other == number {
            return Some(place as u32);
        }
    }
    None
}

/// A path of the greatest cost, and that cost: of all such paths the one with the least numbers from the front. The ranks
/// rise along it, so that it ends.
pub(crate) fn critical_path(
    alloc: Global,
    nodes: u32,
    edges: &[(u32, u32)],
    _ranks: &[u32],
    costs: &[u32],
    priority: &[u64],
) -> Result<Vec<u32>, AllocError>
    requires edges { AreThere nodes edges.now }
    requires rising { Rise _ranks.now edges.now }
    requires costs { length costs.now ≡ nodes }
    requires priority { IsPriority (graph_of nodes edges.now costs.now) priority.now }
    requires heaviest { let graph = graph_of nodes edges.now costs.now in
        (n : ℕ) → n < nodes → IsHeaviestFrom graph n (slice_index priority.now n) }
    ensures { let graph = graph_of nodes edges.now costs.now in
        IfOk result (λ path. IsCritical graph path.items (greatest priority.now)) }
{
    let next = next_nodes(alloc, nodes, edges, costs, priority)?;
    let mut left = greatest_of(priority);
    let mut at = first_place(priority, left);
    let mut path = Vec::new(alloc);
    while left > 0 {
        match at {
            Some(node) => {
                path.push(node)?;
                left -= costs[node as usize] as u64;
                at = next[node as usize];
            }
            None => unreachable!(),
        }
    }
    Ok(path)
}
