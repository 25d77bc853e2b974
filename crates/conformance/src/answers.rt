// The calls, each with the driver that makes it.
use crate::program;
use case_rows::Trouble;
use frame_calls::{frames, kernels, leases};
use graph_calls::{
    expressions, made_levels, models, reading, resolving, tokens, top_levels, world,
};
use job_calls::{heaps, jobs};
use level_calls::{bounds, compilations, lines, orderings, placements, schedules, solving};
use lock_calls::turns;
use serde_json::Value;
use std::alloc::Global;
use std::sync::Wait;
use std::thread::Threads;

/// A call that a table is about.
#[derive(Clone, Copy)]
pub enum Call {
    IsName,
    Print,
    Eval,
    Fire,
    ReadTokens,
    WriteRows,
    Base,
    Counts,
    Order,
    Level,
    Place,
    Reach,
    Placement,
    Map,
    Check,
    Repeat,
    SmallCall,
    Fault,
    Meaning,
    Rewrite,
    Load,
    Put,
    Run,
    Start,
    Copy,
    Cut,
    Pool,
    Lend,
    Schedule,
    Expand,
    Bound,
    Line,
    Resolve,
    MakeLevel,
    Begin,
    OrderWorkers,
    Compile,
    Keep,
    TopLevel,
    MakePath,
    StepJob,
    StepHeaps,
    Meet,
    FireInBlocks,
    StepLock,
    TakeLockInTurn,
    CountOnLock,
}

/// The answer of a call on the inputs of a row.
pub fn answer<R: Threads + Wait + Sync>(
    call: Call,
    rt: &R,
    alloc: Global,
    row: &Value,
) -> Result<Value, Trouble> {
    match call {
        Call::IsName => expressions::is_name_of(alloc, row),
        Call::Print => expressions::printed(alloc, row),
        Call::Eval => expressions::evaluated(alloc, row),
        Call::Fire => kernels::fired(alloc, row),
        Call::ReadTokens => tokens::tokens_read(alloc, row),
        Call::WriteRows => tokens::rows_written(alloc, row),
        Call::Base => solving::base(alloc, row),
        Call::Counts => solving::counts(alloc, row),
        Call::Order => solving::ordered(alloc, row),
        Call::Level => solving::parts(alloc, row),
        Call::Place => solving::place(alloc, row),
        Call::Reach => placements::shared(alloc, row),
        Call::Placement => placements::placement(alloc, row),
        Call::Map => placements::mapped(alloc, row),
        Call::Check => models::checked(alloc, row),
        Call::Repeat => models::repeated(alloc, row),
        Call::SmallCall => models::small_calls(alloc, row),
        Call::Fault => reading::fault(alloc, row),
        Call::Meaning => reading::meaning(alloc, row),
        Call::Rewrite => reading::rewritten(alloc, row),
        Call::Load => world::loads(alloc, row),
        Call::Put => world::puts(alloc, row),
        Call::Run => program::ran(rt, alloc, row),
        Call::Start => frames::started(alloc, row),
        Call::Copy => frames::copied(alloc, row),
        Call::Cut => leases::cut(alloc, row),
        Call::Pool => leases::pooled(alloc, row),
        Call::Lend => leases::lent(alloc, row),
        Call::Schedule => schedules::scheduled(alloc, row),
        Call::Expand => schedules::expanded(alloc, row),
        Call::Bound => bounds::reported(alloc, row),
        Call::Line => lines::lined(alloc, row),
        Call::Resolve => resolving::resolved(alloc, row),
        Call::MakeLevel => made_levels::level_made(alloc, row),
        Call::Begin => made_levels::run_begun(alloc, row),
        Call::OrderWorkers => orderings::orders_and_offsets(alloc, row),
        Call::Compile => compilations::compilation(alloc, row),
        Call::Keep => compilations::kept_by(alloc, row),
        Call::TopLevel => top_levels::top_level_made(alloc, row),
        Call::MakePath => top_levels::path_made(alloc, row),
        Call::StepJob => jobs::answers(alloc, row),
        Call::StepHeaps => heaps::answers(alloc, row),
        Call::Meet => program::met(rt, alloc, row),
        Call::FireInBlocks => program::fired_in_blocks(rt, alloc, row),
        Call::StepLock => turns::stepped(rt, alloc, row),
        Call::TakeLockInTurn => turns::taken_in_turn(rt, alloc, row),
        Call::CountOnLock => turns::counted(rt, alloc, row),
    }
}
