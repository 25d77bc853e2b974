// What is fed to the configuration actors of a graph.
ghost use Rattle.std.specs.Prelude.{◌≡◌, IfOk};
ghost use Rattle.pisdf_meaning.specs.Configuring.{fed_to};

use crate::lists::{copy_tokens, tokens_at};
use param_resolver::feeding;
use pisdf_model::Graph;
use sdf_level::List;
use std::alloc::{AllocError, Global};

/// The tokens of the input interfaces that feed the configuration actor at a place, port by port.
pub fn fed_to(
    alloc: Global,
    graph: &Graph,
    inputs: &[List<i64>],
    actor: usize,
    ports: usize,
) -> Result<List<List<i64>>, AllocError>
    ensures { IfOk result (λ lists. lists ≡ fed_to graph.now inputs.now actor ports) }
{
    let mut lists = Vec::with_capacity(alloc, ports)?;
    for port in 0..ports {
        let interface = feeding(graph.fifos.items(), actor, port);
        lists.push(copy_tokens(alloc, tokens_at(inputs, interface))?)?;
    }
    Ok(List::new(lists))
}
