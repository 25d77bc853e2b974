// The trace of a firing, as it is moved from job to job.
ghost use Rattle.std.specs.Prelude.{◌≡◌, ◌^◌, ◌≤◌, ◌++◌, [], length, true, false, IfOk};
ghost use Rattle.job_preparing.specs.Traces.{IsHeldIfShort, rows_of};

use pisdf_meaning::TraceRow;
use sdf_level::List;
use std::alloc::{AllocError, Global};
use std::collections::LinkedList;
use std::marker::Model;
use std::snapshot::Snapshot;

/// The rows of a trace; or those of two that no list holds together, as data of the proofs alone.
#[derive(Drop)]
pub(crate) enum Rows {
    Held(LinkedList<TraceRow>),
    Lost {
        first: Snapshot<Rows>,
        second: Snapshot<Rows>,
    },
}

/// The rows of a trace, which go from a finished job to the one that called it without memory. No list holds 2^63 rows:
/// where there would be so many they are given up, and contracts alone tell what they are.
#[derive(Drop)]
pub struct Trace {
    pub(crate) rows: Rows,
}

impl Model for Trace {
    ghost use Rattle.std.specs.Prelude.{List as Seq};
    ghost use Rattle.pisdf_meaning.specs.declared.outcome.TraceRow.{TraceRow as Row};

    ghost Value = { Seq Row };

    ghost use Rattle.job_preparing.specs.Traces.{IsHeldIfShort, rows_of};

    ghost view = { λ t. rows_of t.rows };

    ghost invariant = { λ t. IsHeldIfShort t.rows };
}

/// Moves rows to the end of others. It answers false, and moves none, where no list holds them all.
fn join(rows: &mut Rows, more: Rows) -> bool
    requires rows { IsHeldIfShort rows.old }
    requires more { IsHeldIfShort more }
    ensures joined { result ≡ true → rows_of rows.new ≡ rows_of rows.old ++ rows_of more }
    ensures lost { result ≡ false → 2 ^ 63 ≤ length (rows_of rows.old ++ rows_of more) }
    ensures held { IsHeldIfShort rows.new }
{
    match rows {
        Rows::Held(rows) => match more {
            Rows::Held(mut more) => rows.append(&mut more).is_ok(),
            Rows::Lost { .. } => false,
        },
        Rows::Lost { .. } => false,
    }
}

impl Trace {
    /// No rows.
    pub fn new(alloc: Global) -> Trace
        ensures { result ≡ [] }
    {
        Trace::of(LinkedList::new(alloc))
    }

    /// These rows.
    pub fn of(rows: LinkedList<TraceRow>) -> Trace
        ensures { result ≡ rows }
    {
        Trace {
            rows: Rows::Held(rows),
        }
    }

    /// Moves the rows of another trace to the end. It takes no memory.
    pub fn append(&mut self, more: Trace)
        ensures { self.new ≡ self.old ++ more }
    {
        let first = Snapshot::of(&self.rows);
        let second = Snapshot::of(&more.rows);
        if !join(&mut self.rows, more.rows) {
            self.rows = Rows::Lost { first, second };
        }
    }

    /// The rows in a list.
    ///
    /// # Errors
    ///
    /// Want of memory: no list holds 2^63 rows or more.
    pub fn into_list(self, alloc: Global) -> Result<List<TraceRow>, AllocError>
        ensures { IfOk result (λ list. list ≡ self) }
    {
        match self.rows {
            Rows::Held(held) => {
                let mut rows = held;
                let mut list = Vec::new(alloc);
                while let Some(row) = rows.pop_front() {
                    list.push(row)?;
                }
                Ok(List::new(list))
            }
            Rows::Lost { .. } => Err(AllocError),
        }
    }
}
