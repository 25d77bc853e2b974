// What a run leaves: at the sinks and on the links.
ghost use Rattle.std.specs.Prelude.{ℕ, ℤ, ◌≡◌, ◌<◌, ◌≤◌, ◌+◌, ◌*◌, ◌^◌, List as Seq, [], drop, length, slice_index, IfOk};
ghost use Rattle.sdf_level.specs.Interfaces.{last};
ghost use Rattle.sdf_level.specs.Invariants.{is_into_sink};
ghost use Rattle.sdf_level.specs.Lists.{lists_of};
ghost use Rattle.sdf_level.specs.LevelRun.{kept as lines_kept, left_of, left_on, written};
ghost use Rattle.level_lines.specs.Lines.{HasCount};

use sdf_level::{Head, Level, Link, List, Tail};
use std::alloc::{AllocError, Global};

/// A line from a place on.
fn rest(alloc: Global, line: &[i64], start: u64) -> Result<List<i64>, AllocError>
    ensures { IfOk result (λ tokens. tokens ≡ drop start line.now) }
{
    let start = start.min(line.len() as u64) as usize;
    let tokens = Vec::from_slice(alloc, &line[start..])?;
    Ok(List::new(tokens))
}

/// Whether the link leads to this sink.
fn leads_to_sink(link: &Link, sink: u32) -> bool
    ensures { result ≡ is_into_sink sink link.now }
{
    match link.head {
        Head::Sink(head) => head == sink,
        Head::Port { .. } => false,
    }
}

/// All that was written to this sink.
fn written_to<'a>(links: &[Link], lines: &'a [Vec<i64>], sink: u32) -> &'a [i64]
    requires { length lines.now ≡ length links.now }
    ensures { result.now ≡ written sink links.now (lists_of lines.now) }
{
    for i in 0..links.len() {
        if leads_to_sink(&links[i], sink) {
            return lines[i].as_slice();
        }
    }
    &[]
}

/// The last `count` tokens of a line.
fn last_of(alloc: Global, line: &[i64], count: u32) -> Result<List<i64>, AllocError>
    ensures { IfOk result (λ tokens. tokens ≡ last count line.now) }
{
    rest(
        alloc,
        line,
        (line.len() as u64).saturating_sub(count as u64),
    )
}

/// What each sink keeps of the lines: the last tokens that were written to it, as many as its rate.
pub fn kept(alloc: Global, level: &Level, lines: &[Vec<i64>]) -> Result<List<List<i64>>, AllocError>
    requires { length lines.now ≡ length level.now.links }
    ensures { IfOk result (λ lists. lists ≡ lines_kept level.now (lists_of lines.now)) }
{
    let sinks = level.sinks.items();
    let mut lists = Vec::new(alloc);
    for sink in 0..sinks.len() as u32 {
        let line = written_to(level.links.items(), lines, sink);
        lists.push(last_of(alloc, line, sinks[sink as usize])?)?;
    }
    Ok(List::new(lists))
}

/// What is left on a link with this line after all firings: between two actors what was not read.
fn left_on_link(
    alloc: Global,
    link: &Link,
    counts: &[u32],
    line: &[i64],
) -> Result<List<i64>, AllocError>
    requires { HasCount counts.now link.now.head }
    ensures { IfOk result (λ tokens. tokens ≡ left_on counts.now link.now.tail link.now.head line.now) }
{
    match (link.tail, link.head) {
        (Tail::Port { .. }, Head::Port { actor, rate, .. }) => {
            rest(alloc, line, counts[actor as usize] as u64 * rate as u64)
        }
        (Tail::Source(_), _) => Ok(List::new(Vec::new(alloc))),
        (Tail::Port { .. }, Head::Sink(_)) => Ok(List::new(Vec::new(alloc))),
    }
}

/// What is left on each link after all firings, of which each actor made its count: between two actors the tokens that
/// were not read, and nothing at a source or sink.
pub fn left(
    alloc: Global,
    level: &Level,
    counts: &[u32],
    lines: &[Vec<i64>],
) -> Result<List<List<i64>>, AllocError>
    requires counts { length counts.now ≡ level.now.actors }
    requires lines { length lines.now ≡ length level.now.links }
    ensures { IfOk result (λ lists. lists ≡ left_of counts.now level.now.links (lists_of lines.now)) }
{
    let links = level.links.items();
    let mut lists = Vec::new(alloc);
    for i in 0..links.len() {
        lists.push(left_on_link(alloc, &links[i], counts, lines[i].as_slice())?)?;
    }
    Ok(List::new(lists))
}
