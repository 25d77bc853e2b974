// What a firing puts.
ghost use Rattle.std.specs.Prelude.{ℕ, ℤ, ◌≡◌, ◌<◌, ◌++◌, List as Seq, [], length, set, slice_index_or, OnOk};
ghost use Rattle.sdf_level.specs.Lists.{lists_of};
ghost use Rattle.sdf_level.specs.Run.{added, put as lines_put};
ghost use Rattle.level_lines.specs.AtActors.{ArePorts, no_link};

use crate::ports::Ports;
use sdf_level::{Level, Link, List, Tail};
use std::alloc::AllocError;

/// Puts tokens at the end of a line.
fn extend(lines: &mut [Vec<i64>], place: u32, tokens: &[i64]) -> Result<(), AllocError>
    requires { place < length lines.old }
    ensures { OnOk result (lists_of lines.new ≡ set (lists_of lines.old) place (slice_index_or (lists_of lines.old) place [] ++ tokens.now)) }
{
    lines[place as usize].extend_from_slice(tokens)?;
    Ok(())
}

/// What these outputs of an actor add to a line whose link has this tail.
fn added_by<'a>(tail: &Tail, actor: u32, outputs: &'a [List<i64>]) -> &'a [i64]
    ensures { result.now ≡ added actor outputs.now tail.now }
{
    match *tail {
        Tail::Source(_) => &[],
        Tail::Port {
            actor: owner,
            port,
            ..
        } => {
            if owner == actor && (port as usize) < outputs.len() {
                outputs[port as usize].items()
            } else {
                &[]
            }
        }
    }
}

/// Puts what a firing of an actor gave, a list for each output port, at the ends of the lines of the links from it.
pub fn put(
    level: &Level,
    ports: &Ports,
    lines: &mut [Vec<i64>],
    actor: u32,
    outputs: &[List<i64>],
) -> Result<(), AllocError>
    requires ports { ArePorts level.now ports.now }
    requires actor { actor < level.now.actors }
    requires lines { length lines.old ≡ length level.now.links }
    ensures { OnOk result (lists_of lines.new ≡ lines_put actor outputs.now level.now.links (lists_of lines.old)) }
{
    let links = level.links.items();
    for place in ports.links_from(actor) {
        let tokens = added_by(&links[*place as usize].tail, actor, outputs);
        extend(lines, *place, tokens)?;
    }
    Ok(())
}
