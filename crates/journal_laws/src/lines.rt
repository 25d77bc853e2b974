ghost use Rattle.journal_laws.specs.Lines.{BeginningsTell, EntriesAreLines, JournalsHavePlainPaths, LinesBegin, LinesTellEntries};

use job_rules::rules_are_lawful;
use worker_crew::board_laws;

/// The lines of a journal's text are those of its entries, one after the other, where no path has a line feed.
pub fn entries_are_lines()
    ensures { EntriesAreLines }
{}

/// In a legal journal of graphs whose names are names each path is made of names, digits, `/` and `:`.
pub fn paths_are_plain()
    ensures { JournalsHavePlainPaths }
{
    rules_are_lawful();
    board_laws();
}

/// Up to its path, the line of a claim tells the iteration and the worker, and so does the whole line of a finish. Lines of
/// two workers, or a claim and a finish, differ within that.
pub fn lines_begin()
    ensures begin { LinesBegin }
    ensures tell { BeginningsTell }
{}

/// Entries of one iteration that have the same line are one.
pub fn lines_tell_entries()
    ensures { LinesTellEntries }
{}
