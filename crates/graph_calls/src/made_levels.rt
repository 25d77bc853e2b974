// The levels of graphs, and the state with which a run of them begins.
ghost use Rattle.std.specs.Prelude.{ℤ, ◌≡◌, ◌<◌, List as Seq, length};
ghost use Rattle.param_resolver.specs.EarlyCheck.{early_of};
ghost use Rattle.pisdf_model.specs.Valid.{AreValid};

use crate::parts::text_answer;
use crate::resolving::{Asked, graphs_read, told_of};
use crate::shown::{Shown, Writing, text_of};
use case_rows::{Trouble, answer_in, lists_text};
use param_resolver::{Early, LevelFault, LevelSet, Origin, graphs_resolvable, level_of, resolve};
use pisdf_meaning::first_delays;
use pisdf_model::Graphs;
use sdf_level::{Head, Link, Tail};
use serde_json::Value;
use std::alloc::Global;

/// The link as `"TAIL -> HEAD (DELAY)"`.
impl Shown for Link {
    fn show(&self, writing: &mut Writing) {
        match self.tail {
            Tail::Source(source) => writing.put(format_args!("\"source {source}")),
            Tail::Port { actor, port, rate } => writing.put(format_args!(
                "\"{actor}.{port} {rate}"
            )),
        }
        match self.head {
            Head::Sink(sink) => writing.put(format_args!(" -> sink {sink}")),
            Head::Port { actor, port, rate } => writing.put(format_args!(
                " -> {actor}.{port} {rate}"
            )),
        }
        writing.put(format_args!(" ({})\"", self.delay));
    }
}

/// What a link comes from: `"fifo PLACE"` or `"state PLACE"`.
impl Shown for Origin {
    fn show(&self, writing: &mut Writing) {
        match self {
            Origin::Fifo(place) => writing.put(format_args!("\"fifo {place}\"")),
            Origin::State(place) => writing.put(format_args!("\"state {place}\"")),
        }
    }
}

/// What is known of the graph that an actor names, or `null`.
impl Shown for Option<Early> {
    fn show(&self, writing: &mut Writing) {
        match self {
            Some(early) => early.show(writing),
            None => writing.put("null"),
        }
    }
}

/// A level as a JSON text: how many actors it has, its sources, its sinks, its links and what they come from, and for each
/// actor its place, its arguments, its output rates, and what is known of the graph that it names.
impl Shown for LevelSet {
    fn show(&self, writing: &mut Writing) {
        let level = &self.level;
        writing.put(format_args!(
            "[{},{:?},{:?}",
            level.actors,
            level.sources.items(),
            level.sinks.items()
        ));
        writing.put_list(',', level.links.items());
        writing.put_list(',', self.origins.items());
        writing.put(format_args!(",{:?}", self.places.items()));
        writing.put_list(',', self.args.items());
        writing.put_list(',', self.outs.items());
        writing.put_list(',', self.children.items());
        writing.put(']');
    }
}

impl Shown for LevelFault {
    fn show(&self, writing: &mut Writing) {
        match self {
            LevelFault::Rate { name, why } => {
                writing.put(format_args!("rate {} ", name.text()));
                why.show(writing);
            }
            LevelFault::Child { actor, fault } => {
                writing.put(format_args!("child {actor} "));
                fault.show(writing);
            }
            LevelFault::Memory => writing.is_whole = false,
        }
    }
}

/// The level where the chosen parameters have these values, or the first fault.
pub(crate) fn level_told(
    alloc: Global,
    graphs: &Graphs,
    place: u32,
    early: &Early,
    chosen: &[i64],
) -> Result<Value, Trouble>
    requires valid { AreValid graphs.now }
    requires there { place < length graphs.now.graphs }
    requires early { (inherited : Seq ℤ) × (early.now ≡ early_of graphs.now.graphs place inherited) }
{
    graphs_resolvable();
    let graph = &graphs.graphs.items()[place as usize];
    let Ok(values) = resolve(alloc, graph, early, chosen) else {
        return Err(Trouble::Member("chosen"));
    };
    if values.items().len() != graph.params.items().len() {
        return Err(Trouble::Member("chosen"));
    }
    match level_of(alloc, graphs, place, early, values.items()) {
        Ok(set) => answer_in(alloc, text_of(alloc, &set)),
        Err(fault) => text_answer(text_of(alloc, &fault)),
    }
}

/// The level of the graph at the row's place, where its inherited and chosen parameters have these values.
pub fn level_made(alloc: Global, row: &Value) -> Result<Value, Trouble> {
    let graphs = graphs_read(alloc, row)?;
    told_of(alloc, row, &graphs, Asked::Level)
}

/// The lists of tokens with which a run of the row's graphs begins.
pub fn run_begun(alloc: Global, row: &Value) -> Result<Value, Trouble> {
    let graphs = graphs_read(alloc, row)?;
    match first_delays(alloc, &graphs) {
        Ok(delays) => answer_in(alloc, lists_text(alloc, delays.lists.items())),
        Err(_) => Err(Trouble::Memory),
    }
}
