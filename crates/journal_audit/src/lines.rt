// The lines of a text, and those of entries.
ghost use Rattle.std.specs.Prelude.{◌≡◌, IfOk, string_bytes};
ghost use Rattle.board_rules.specs.declared.entry.Entry.TheVariants as entry;
ghost use Rattle.journal_laws.specs.Lines.{claim_begin};
ghost use Rattle.quiescent_driver.specs.Journals.{entry_line};
ghost use Rattle.journal_audit.specs.Reading.{first_line};

use board_rules::ItemName;
use pisdf_meaning::Path;
use std::alloc::{AllocError, Global};
use std::fmt::Write;

/// The first line of a text, with its line feed, if it has one; empty where the text is.
pub(crate) fn first_line(text: &[u8]) -> &[u8]
    ensures { result.now ≡ first_line text.now }
{
    for place in 0..text.len() {
        if text[place] == b'\n' {
            return &text[..place + 1];
        }
    }
    text
}

/// The line of a claim.
pub(crate) fn claim_line(
    alloc: Global,
    number: u32,
    worker: u32,
    path: &Path,
    item: ItemName,
) -> Result<String, AllocError>
    ensures { IfOk result (λ s. string_bytes s ≡ entry_line number (entry.Claim worker path.now item)) }
{
    let path = path.text().text();
    let mut text = String::new(alloc);
    match item {
        ItemName::Configure(place) => {
            write!(text, "claim,{number},{worker},{path},configure,{place}\n")?;
        }
        ItemName::Compile => {
            write!(text, "claim,{number},{worker},{path},compile,0\n")?;
        }
        ItemName::Node(node) => {
            write!(text, "claim,{number},{worker},{path},node,{node}\n")?;
        }
    }
    Ok(text)
}

/// What each line of a claim by a worker begins with.
pub(crate) fn claim_start(alloc: Global, number: u32, worker: u32) -> Result<String, AllocError>
    ensures { IfOk result (λ s. string_bytes s ≡ claim_begin number worker) }
{
    format!(in alloc; "claim,{number},{worker},")
}

/// The line of a finish.
pub(crate) fn finish_line(alloc: Global, number: u32, worker: u32) -> Result<String, AllocError>
    ensures { IfOk result (λ s. string_bytes s ≡ entry_line number (entry.Finish worker)) }
{
    format!(in alloc; "finish,{number},{worker}\n")
}
