// Closes jobs of which nothing more will come.
ghost use Rattle.std.specs.Prelude.{◌≡◌, ◌<◌, IfOk};
ghost use Rattle.journal_audit.specs.Closing.{ClosesFrom, ClosesTo, Finishing};

use crate::slots::{end_call_in, take_row};
use crate::table::{Row, key_of, row_at};
use audit_job::{Answer, is_quiet, outcome};
use board_rules::boards_keep;
use job_rules::rules_are_lawful;
use pisdf_model::Graphs;
use std::alloc::{AllocError, Global};

/// Closes the job of the row at a key and those round it, from the deepest up, as long as they are quiet: how the top job ended,
/// if it was closed.
pub(crate) fn close(
    alloc: Global,
    graphs: &Graphs,
    rows: &mut Vec<Option<Row>>,
    key: usize,
) -> Result<Option<Answer>, AllocError>
    requires { (f : Finishing) × ClosesFrom graphs.now rows.old.items key f }
    ensures { IfOk result (λ end. (f : Finishing) → ClosesFrom graphs.now rows.old.items key f → ClosesTo rows.new.items f end) }
{
    boards_keep();
    rules_are_lawful();
    let quiet = is_quiet(graphs, &row_at(rows.as_slice(), key).job);
    if !quiet {
        return Ok(None);
    }
    let row = take_row(&mut rows[key]);
    let Row { job, place } = row;
    let end = outcome(alloc, graphs.graphs.items(), job)?;
    if place.items().is_empty() {
        return Ok(Some(end));
    }
    let round = key_of(rows.as_slice(), &place.items()[1..]);
    match round {
        Some(round) => {
            end_call_in(&mut rows[round], place.items()[0], end);
            close(alloc, graphs, rows, round)
        }
        None => unreachable!(),
    }
}
