// The status of a command whose iteration isn't done.
ghost use Rattle.std.specs.Prelude.{◌≡◌, ◌⊎◌, ◌<◌, length, map, IfOk};
ghost use Rattle.job_report.specs.Rows.{name_at};
ghost use Rattle.pisdf_program.specs.Result.{short_of};
ghost use Rattle.pisdf_program.specs.Worked.{StopsWith};

use crate::status::{Status, TokenCause};
use param_expr::Name;
use pisdf_model::{Graphs, Interface};
use quiescent_driver::{Stop, top_of};
use std::alloc::{AllocError, Global};

/// The name of an input by its number.
fn name_at(alloc: Global, inputs: &[Interface], stream: usize) -> Result<Name, AllocError>
    ensures { IfOk result (λ n. n ≡ name_at (map (λ i. i.name) inputs.now) stream) }
{
    if stream < inputs.len() {
        return inputs[stream].name.clone();
    }
    Ok(Name::new(String::new(alloc)))
}

/// The status of an iteration that lacks tokens of a stream.
pub(crate) fn short_status(
    alloc: Global,
    graphs: &Graphs,
    stream: usize,
    has: u64,
    needs: u32,
) -> Status
    requires { graphs.now.top < length graphs.now.graphs }
    ensures { (result ≡ short_of graphs.now record { stream = stream; has = has; needs = needs }) ⊎ (result ≡ Status.WantOfMemory) }
{
    match name_at(alloc, top_of(graphs).inputs.items(), stream) {
        Ok(stream) => Status::TokensRefused(TokenCause::Short { stream, has, needs }),
        Err(_) => Status::WantOfMemory,
    }
}

/// The status of a command that ends so.
pub(crate) fn stop_status(alloc: Global, graphs: &Graphs, stop: Stop) -> Status
    requires { graphs.now.top < length graphs.now.graphs }
    ensures { StopsWith graphs.now stop result }
{
    match stop {
        Stop::Short { stream, has, needs } => short_status(alloc, graphs, stream, has, needs),
        Stop::Refused(refusal) => Status::RunRefused(refusal),
        Stop::Memory => Status::WantOfMemory,
    }
}
