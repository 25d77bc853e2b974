// The text of a journal.
ghost use Rattle.std.specs.Prelude.{◌≡◌, ◌++◌, IfOk, OnOk, string_bytes, true};
ghost use Rattle.board_journal.specs.View.{entry_told};
ghost use Rattle.board_rules.specs.declared.entry.Entry.TheVariants as entry;
ghost use Rattle.quiescent_driver.specs.Journals.{entry_line, journal_text};

use board_journal::{EntryAt, Journal};
use board_rules::ItemName;
use pisdf_meaning::Path;
use std::alloc::{AllocError, Global};
use std::fmt::Write;

fn push_claim(
    text: &mut String,
    number: u32,
    worker: u32,
    path: &Path,
    item: ItemName,
) -> Result<(), AllocError>
    ensures { OnOk result (string_bytes text.new ≡ string_bytes text.old ++ entry_line number (entry.Claim worker path.now item)) }
{
    let path = path.text().text();
    match item {
        ItemName::Configure(place) => {
            write!(text, "claim,{number},{worker},{path},configure,{place}\n")
        }
        ItemName::Compile => write!(text, "claim,{number},{worker},{path},compile,0\n"),
        ItemName::Node(node) => write!(text, "claim,{number},{worker},{path},node,{node}\n"),
    }
}

fn push_entry(text: &mut String, number: u32, entry: EntryAt<'_>) -> Result<(), AllocError>
    ensures { OnOk result (string_bytes text.new ≡ string_bytes text.old ++ entry_line number (entry_told entry.entry)) }
{
    match entry {
        EntryAt::Claim { worker, path, item } => push_claim(text, number, worker, path, item),
        EntryAt::Finish { worker } => write!(text, "finish,{number},{worker}\n"),
    }
}

/// A line for each entry of the journal of an iteration, which can be read.
pub(crate) fn journal_text(
    alloc: Global,
    number: u32,
    journal: &Journal,
) -> Result<String, AllocError>
    requires { journal.now.readable ≡ true }
    ensures { IfOk result (λ s. string_bytes s ≡ journal_text number journal.now.entries) }
{
    let mut text = String::new(alloc);
    for place in 0..journal.len() {
        push_entry(&mut text, number, journal.entry(place))?;
    }
    Ok(text)
}
