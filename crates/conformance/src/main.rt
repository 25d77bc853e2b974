//! Compares the calls of the libraries with tables of cases: each line of a table, a file of `data/`, is a JSON object
//! with the inputs of a call and the answer that is wanted, or with a graph and cases of it. It prints each case whose answer is
//! another, and at the end the number of cases of each table. The tables whose names begin with `wrong` have rows on purpose
//! that want a wrong answer or haven't their form: what is printed of them is stored too.
#![tactic(auto)]

mod answers;
mod blocks;
mod meeting;
mod program;
mod table;

use crate::answers::Call;
use crate::table::{run_boards, run_calls};
use std::io;

/// The tables, each with the call that it is about, in the order of their lines in the output.
const TABLES: [(&str, Call); 53] = [
    ("names.jsonl", Call::IsName),
    ("expressions.jsonl", Call::Print),
    ("values.jsonl", Call::Eval),
    ("kernels.jsonl", Call::Fire),
    ("token_files.jsonl", Call::ReadTokens),
    ("rows.jsonl", Call::WriteRows),
    ("levels.jsonl", Call::Level),
    ("bases.jsonl", Call::Base),
    ("repetitions.jsonl", Call::Counts),
    ("places.jsonl", Call::Place),
    ("orders.jsonl", Call::Order),
    ("reaches.jsonl", Call::Reach),
    ("placements.jsonl", Call::Placement),
    ("mappings.jsonl", Call::Map),
    ("checks.jsonl", Call::Check),
    ("repeated_names.jsonl", Call::Repeat),
    ("small_calls.jsonl", Call::SmallCall),
    ("faults.jsonl", Call::Fault),
    ("meanings.jsonl", Call::Meaning),
    ("rewritten.jsonl", Call::Rewrite),
    ("faults_of_versions.jsonl", Call::Fault),
    ("rewritten_of_versions.jsonl", Call::Rewrite),
    ("loads.jsonl", Call::Load),
    ("puts.jsonl", Call::Put),
    ("runs.jsonl", Call::Run),
    ("jobs.jsonl", Call::Run),
    ("frames.jsonl", Call::Start),
    ("copies.jsonl", Call::Copy),
    ("cuts.jsonl", Call::Cut),
    ("pools.jsonl", Call::Pool),
    ("lendings.jsonl", Call::Lend),
    ("schedules.jsonl", Call::Schedule),
    ("expansions.jsonl", Call::Expand),
    ("bounds.jsonl", Call::Bound),
    ("lines.jsonl", Call::Line),
    ("resolutions.jsonl", Call::Resolve),
    ("made_levels.jsonl", Call::MakeLevel),
    ("first_states.jsonl", Call::Begin),
    ("orderings.jsonl", Call::OrderWorkers),
    ("compilations.jsonl", Call::Compile),
    ("keepings.jsonl", Call::Keep),
    ("top_levels.jsonl", Call::TopLevel),
    ("paths.jsonl", Call::MakePath),
    ("job_steps.jsonl", Call::StepJob),
    ("heaps.jsonl", Call::StepHeaps),
    ("meetings.jsonl", Call::Meet),
    ("blocks.jsonl", Call::FireInBlocks),
    ("lock_steps.jsonl", Call::StepLock),
    ("lock_in_turn.jsonl", Call::TakeLockInTurn),
    ("lock_counts.jsonl", Call::CountOnLock),
    ("wrong_numbers.jsonl", Call::Counts),
    ("wrong_texts.jsonl", Call::MakePath),
    ("wrong_graphs.jsonl", Call::Check),
];

/// The tables whose lines are graphs with cases, in the order of their lines in the output, which come last.
const BOARDS: [&str; 7] = [
    "board_calls.jsonl",
    "board_journals.jsonl",
    "board_orders.jsonl",
    "board_kept.jsonl",
    "board_limits.jsonl",
    "board_graphs.jsonl",
    "board_crews.jsonl",
];

fn main(rt: HostRuntime) -> io::Result<()> {
    run_calls(&rt, &TABLES)?;
    run_boards(&rt, &BOARDS)
}
