// The journal of one board.
ghost use Rattle.std.specs.Prelude.{◌≡◌, ◌<◌, ℕ, [], List as Seq, IfOk};
ghost use Rattle.kernel_gate.specs.Signed.{unnamed};
ghost use Rattle.board_rules.specs.Keys.{IsKey, Key};
ghost use Rattle.quiescent_driver.specs.Given.{key_with};
ghost use Rattle.journal_audit.specs.Replays.{HasReadBoard, Replays};

use crate::lines::first_line;
use crate::replay::{Replay, start};
use crate::stepping::step;
use audit_job::Answer;
use job_compiler::Kept;
use kernel_gate::Gate;
use pisdf_meaning::{Delays, runnable, top_firing};
use pisdf_model::Graphs;
use sdf_level::List;
use std::alloc::{AllocError, Global};

/// How the journal of a board reads at the head of a text.
#[derive(Drop)]
pub(crate) struct Read {
    /// How many bytes of the text are legal lines of it, and how many lines these are.
    pub(crate) bytes: usize,
    pub(crate) lines: u64,
    /// How the top job ended, where the journal has.
    pub(crate) end: Option<Answer>,
}

/// Takes as many lines of a text as the journal of a board can have.
fn read_lines<K: Gate>(
    alloc: Global,
    graphs: &Graphs,
    mut replay: Replay,
    number: u32,
    text: &[u8],
    kept: &mut Kept,
    gate: &K,
) -> Result<Read, AllocError>
    requires { (key : Key) × Replays graphs.now key [] replay × (key.signatures ≡ unnamed (K.kernels gate.now)) }
    ensures { IfOk result (λ read. (key : Key) → Replays graphs.now key [] replay → key.signatures ≡ unnamed (K.kernels gate.now) → HasReadBoard graphs.now key number text.now read) }
{
    let mut bytes = 0;
    let mut lines = 0;
    while replay.end.is_none() {
        let line = first_line(&text[bytes..]);
        if !step(alloc, graphs, &mut replay, number, line, kept, gate)? {
            return Ok(Read {
                bytes,
                lines,
                end: None,
            });
        }
        bytes += line.len();
        lines += 1;
    }
    Ok(Read {
        bytes,
        lines,
        end: replay.end,
    })
}

/// Reads the journal of the board of an iteration with this number, this state and these inputs.
pub(crate) fn read_board<K: Gate>(
    alloc: Global,
    graphs: &Graphs,
    delays: &Delays,
    ins: &[List<i64>],
    workers: u32,
    number: u32,
    text: &[u8],
    kept: &mut Kept,
    gate: &K,
) -> Result<Read, AllocError>
    requires { IsKey (key_with graphs.now (K.kernels gate.now) delays.now.lists ins.now workers) }
    ensures { IfOk result (HasReadBoard graphs.now (key_with graphs.now (K.kernels gate.now) delays.now.lists ins.now workers) number text.now) }
{
    runnable();
    let top = &graphs.graphs.items()[graphs.top as usize];
    let firing = top_firing(alloc, top, graphs.top, delays, ins)?;
    let replay = start(alloc, graphs, workers, firing)?;
    read_lines(alloc, graphs, replay, number, text, kept, gate)
}
