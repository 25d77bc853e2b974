// The command that judges a journal.
ghost use Rattle.std.specs.Prelude.{◌≡◌, ◌≢◌, ◌<◌, ◌≤◌, ◌⊎◌, Some, Err, IfErr, IfOk, string_bytes};
ghost use Rattle.kernel_gate.specs.Table.{the_signatures};
ghost use Rattle.pisdf_program.specs.Result.{Audits, FromFiles, ThreeAreTold, judged, legal_row};
ghost use Rattle.pisdf_program.specs.Words as table;
ghost use Rattle.pisdf_program.specs.Worked.{CountRose, IsThere, ReadsNothing, Works};

use crate::load::{load_input, load_journal};
use crate::status::{JournalCause, Status};
use journal_audit::{Verdict, audit};
use kernel_gate::Gate;
use outer_world::{Shelf, Sink, put_text};
use std::alloc::{AllocError, Global};
use std::sync::Arc;

/// The row that tells how many boards and entries a journal has.
fn legal_row(alloc: Global, boards: u32, entries: u64) -> Result<String, AllocError>
    ensures { IfOk result (λ text. string_bytes text ≡ legal_row boards entries) }
{
    format!(in alloc; "audit,legal,{boards},{entries}\n")
}

/// Puts the row of a legal journal, in one put.
fn put_legal<O: Sink>(
    alloc: Global,
    boards: u32,
    entries: u64,
    out: &mut O,
) -> Result<String, Status>
    ensures works { Works (λ o. o ≡ judged (Verdict.Legal boards entries)) (O.written out.old) (O.written out.new) (O.faults out.old) (O.faults out.new) result }
    ensures fault { IfErr result (λ s. (s ≡ Status.WantOfMemory) ⊎ (s ≡ Status.WriteFault)) }
{
    let Ok(row) = legal_row(alloc, boards, entries) else {
        return Err(Status::WantOfMemory);
    };
    match put_text(out, row.as_bytes()) {
        Ok(()) => Ok(String::new(alloc)),
        Err(_) => Err(Status::WriteFault),
    }
}

/// Tells what a journal is judged to be. The answer is no text for standard error, or a status.
fn tell_verdict<O: Sink>(alloc: Global, verdict: Verdict, out: &mut O) -> Result<String, Status>
    ensures works { Works (λ o. o ≡ judged verdict) (O.written out.old) (O.written out.new) (O.faults out.old) (O.faults out.new) result }
    ensures read { IfErr result ReadsNothing }
{
    match verdict {
        Verdict::Legal { boards, entries } => put_legal(alloc, boards, entries, out),
        Verdict::Illegal { line } => Err(Status::JournalRefused(JournalCause::Illegal { line })),
    }
}

/// Judges whether a file is the text of the journals of a whole run of a graph file on a token file by so many workers. The
/// answer is no text for standard error, or a status.
pub(crate) fn tell_audit<S: Shelf, O: Sink, K: Gate>(
    alloc: Global,
    graph: &str,
    tokens: &str,
    iterations: u32,
    workers: u32,
    journal: &str,
    shelf: &mut S,
    out: &mut O,
    gate: &K,
) -> Result<String, Status>
    requires kernels { K.kernels gate.now ≡ the_signatures }
    requires some { 0 < workers }
    requires most { workers ≤ 16 }
    ensures works { Works (FromFiles (Audits iterations workers (S.holds shelf.old journal.now)) (S.holds shelf.old graph.now) (S.holds shelf.old tokens.now)) (O.written out.old) (O.written out.new) (O.faults out.old) (O.faults out.new) result }
    ensures there { IsThere (ThreeAreTold (S.holds shelf.old graph.now) (S.holds shelf.old tokens.now) (S.holds shelf.old journal.now)) (FromFiles (Audits iterations workers (S.holds shelf.old journal.now)) (S.holds shelf.old graph.now) (S.holds shelf.old tokens.now)) result }
    ensures read { IfErr result (CountRose (Some (table.Audit graph.now tokens.now iterations workers journal.now)) (S.faults shelf.old) (S.faults shelf.new)) }
    ensures usage { result ≢ Err Status.Usage }
{
    let input = match load_input(alloc, shelf, graph, tokens, gate.signatures()) {
        Ok(input) => input,
        Err(status) => return Err(status),
    };
    let text = match load_journal(shelf, journal) {
        Ok(text) => text,
        Err(status) => return Err(status),
    };
    let Ok(graphs) = Arc::new(alloc, input.graphs) else {
        return Err(Status::WantOfMemory);
    };
    let streams = input.streams.items();
    let Ok(verdict) = audit(
        alloc,
        &graphs,
        streams,
        iterations,
        workers,
        text.items(),
        gate,
    ) else {
        return Err(Status::WantOfMemory);
    };
    tell_verdict(alloc, verdict, out)
}
