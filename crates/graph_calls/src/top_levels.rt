// The level of the top graph in an iteration, and the paths of jobs.
ghost use Rattle.std.specs.Prelude.{◌≡◌, [], IfOk};
ghost use Rattle.kernel_gate.specs.Signed.{unnamed};
ghost use Rattle.kernel_gate.specs.Table.{the_signatures};
ghost use Rattle.param_resolver.specs.EarlyCheck.{early_faults};
ghost use Rattle.pisdf_meaning.specs.Sound.{AreValidFor};

use crate::parts::text_answer;
use crate::shown::{Shown, Writing, text_of};
use case_rows::{Trouble, answer_in, answer_of_text, lists, quoted, text};
use graph_laws::kernels_fit;
use graph_reader::read;
use kernel_gate::Gate;
use kernel_library::Library;
use level_schedule::What;
use param_expr::Name;
use pisdf_meaning::{Cause, Delays, Left, Path, PlainFault, first_delays, top_level, top_needs};
use pisdf_model::Graphs;
use sdf_level::List;
use serde_json::Value;
use std::alloc::Global;

/// The graphs of the row's file, which has `'` in the place of `"`, over the library's kernels.
fn graphs_fitting(alloc: Global, row: &Value) -> Result<Graphs, Trouble>
    ensures { IfOk result (AreValidFor (unnamed the_signatures)) }
{
    kernels_fit();
    let file = quoted(alloc, row, "file")?;
    match read(alloc, file.as_slice(), Library.signatures()) {
        Ok(graphs) => Ok(graphs),
        Err(_) => Err(Trouble::Member("file")),
    }
}

/// The state before the iteration: the row's `state`, a list for each FIFO and then for each actor, or where it has none
/// the state with which a run begins.
fn state_before(alloc: Global, row: &Value, graphs: &Graphs) -> Result<Delays, Trouble> {
    if row.get("state").is_none() {
        return Ok(first_delays(alloc, graphs)?);
    }
    let lists = lists(alloc, row, "state")?;
    Ok(Delays { lists })
}

/// The word for what is over its limit.
fn word_of(what: What) -> &'static str {
    match what {
        What::Firings => "firings",
        What::Links => "links",
        What::Tokens => "tokens",
    }
}

/// An actor with its count of firings left.
impl Shown for Left {
    fn show(&self, writing: &mut Writing) {
        writing.put(format_args!("{}:{}", self.name.text(), self.count));
    }
}

/// The words of a cause, with its names and numbers.
impl Shown for Cause {
    fn show(&self, writing: &mut Writing) {
        match self {
            Cause::Param {
                name,
                why,
                low,
                high,
            } => {
                writing.put(format_args!("param {} ", name.text()));
                why.show(writing);
                writing.put(format_args!(" range {low} {high}"));
            }
            Cause::Rate { name, why } => {
                writing.put(format_args!("rate {} ", name.text()));
                why.show(writing);
            }
            Cause::Rates => writing.put("rates"),
            Cause::Limit { what, value } => writing.put(format_args!(
                "limit {} {value}",
                word_of(*what)
            )),
            Cause::Deadlock { left } => {
                writing.put("deadlock");
                writing.put_each(" ", left.items());
            }
            Cause::Kernel {
                actor,
                firing,
                code,
            } => writing.put(format_args!("kernel {} firing {firing} code {code}", actor.text())),
        }
    }
}

/// Why there is no level: the path of a refusal and its cause.
fn fault_told(alloc: Global, fault: &PlainFault) -> Result<Value, Trouble> {
    match fault {
        PlainFault::Refused(refusal) => {
            let cause = text_of(alloc, &refusal.cause)?;
            text_answer(format!(in alloc; "{} {cause}", refusal.path.text().text()))
        }
        PlainFault::Memory => Err(Trouble::Memory),
    }
}

/// The level of the top graph in an iteration that takes these tokens, or its refusal.
fn level_told(
    alloc: Global,
    graphs: &Graphs,
    delays: &Delays,
    ins: &[List<i64>],
) -> Result<Value, Trouble>
    requires valid { AreValidFor (unnamed the_signatures) graphs.now }
    requires sound { early_faults graphs.now.graphs graphs.now.top [] ≡ [] }
{
    match top_level(alloc, graphs, delays, ins, &Library) {
        Ok(set) => answer_in(alloc, text_of(alloc, &set)),
        Err(fault) => fault_told(alloc, &fault),
    }
}

/// The level of the top graph of the row's file in an iteration that takes the tokens `ins`, a list for each input, or
/// the path and the cause of its refusal.
pub fn top_level_made(alloc: Global, row: &Value) -> Result<Value, Trouble> {
    let ins = lists(alloc, row, "ins")?;
    let graphs = graphs_fitting(alloc, row)?;
    let delays = state_before(alloc, row, &graphs)?;
    match top_needs(alloc, &graphs) {
        Ok(_) => level_told(alloc, &graphs, &delays, ins.items()),
        Err(fault) => fault_told(alloc, &fault),
    }
}

/// The texts of paths.
fn texts_of(alloc: Global, paths: [&Path; 3]) -> Result<Value, Trouble> {
    let mut texts = Vec::new(alloc);
    for path in paths {
        texts.push(answer_of_text(alloc, path.text().text())?)?;
    }
    Ok(Value::from(texts))
}

/// The texts of a path that is made from the row's text, of an equal one, and of one that is equal to that.
pub fn path_made(alloc: Global, row: &Value) -> Result<Value, Trouble> {
    let path = Path::new(alloc, Name::new(text(alloc, row, "text")?))?;
    let equal = path.copy()?;
    let last = equal.copy()?;
    texts_of(alloc, [&path, &equal, &last])
}
