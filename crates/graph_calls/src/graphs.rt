// Graphs as the rows give them, with their numbers in place of names.
//
// A row has the `top` (0 where it isn't given), the `version` (1) and the `graphs`. A graph is an object with its `name`
// and the lists of its parts, each of which may be left out:
//
// - a parameter of `params` is `[name, "in"]`, `[name, "set"]` or `[name, "is", expression]`, and has the range 0 to 9;
// - an interface of `inputs` or `outputs` is `[name, expression]`;
// - an actor of `actors` is an object with its `name`; with the place of its `kernel`, and `args`, `ins` and `outs`; of
//   its `config` kernel, and `args`, `ins`, which are names, `outs` and `sets`; of its child `graph`, and `args`; or of
//   the child `setgraph`, and `args` and `sets`;
// - a FIFO of `fifos` is `[tail, head]`, `[tail, head, delay]` or `[tail, head, delay, life]`: an end is the number of an
//   interface, or `[actor, port]`; a delay a number of zeros or a list of tokens; a life `firing` or `permanent`, and
//   where none is given that of version 1; and `exports` are the places of parameters.
//
// An expression is a number, or a text over the parameters `p0`, `p1` and so on. `{"times": n, "of": part}` is a part
// so many times.

use crate::parts::name_in;
use case_rows::{Trouble, items, numbers_of, small, small_of, small_or, smalls};
use param_expr::{Expr, Name, bind, parse};
use pisdf_model::{
    Actor, Body, End, Fifo, Graph, Graphs, Interface, Life, Param, ParamKind, Port, life_of,
};
use sdf_level::List;
use serde_json::Value;
use std::alloc::Global;

/// Reads graphs. Where a part hasn't its form it keeps the trouble, and goes on with another part in its place.
#[derive(Drop)]
struct Reader {
    alloc: Global,
    /// The names `p0` to `p99`.
    names: Vec<Name>,
    /// The place of the top graph.
    top: u32,
    /// The place of the graph that is read.
    place: u32,
    trouble: Option<Trouble>,
}

/// A part of graphs.
trait Part: Drop + Sized {
    /// The part that a value is.
    fn read(reader: &mut Reader, value: &Value) -> Self;
}

impl Reader {
    /// What was read, or where that failed the other value.
    fn kept<T: Drop>(&mut self, read: Result<T, Trouble>, other: T) -> T {
        match read {
            Ok(value) => {
                drop(other);
                value
            }
            Err(trouble) => {
                self.trouble = Some(trouble);
                other
            }
        }
    }

    /// Keeps the trouble where a part isn't a list of so many items.
    fn form(&mut self, part: &Value, least: usize, most: usize, name: &'static str) {
        let long = match part.as_array() {
            Some(list) => list.len(),
            None => 0,
        };
        if long < least || long > most {
            self.trouble = Some(Trouble::Member(name));
        }
    }

    /// The numbers of the part's member of this name.
    fn numbers(&mut self, part: &Value, name: &'static str) -> List<u32> {
        let alloc = self.alloc;
        List::new(self.kept(smalls(alloc, part, name), Vec::new(alloc)))
    }

    /// Puts the part that an item is, or so many as it stands for, behind those that are there.
    fn push<T: Part>(&mut self, parts: &mut Vec<T>, item: &Value) {
        let one = item.get("of").unwrap_or(item);
        let times = match item.get("of") {
            Some(_) => self.kept(small(item, "times"), 0),
            None => 1,
        };
        for _ in 0..times {
            let part = T::read(self, one);
            match parts.push(part) {
                Ok(()) => {}
                Err(_refused) => self.trouble = Some(Trouble::Memory),
            }
        }
    }

    /// The parts of the part's member of this name.
    fn list<T: Part>(&mut self, part: &Value, name: &'static str) -> List<T> {
        let mut parts = Vec::new(self.alloc);
        match items(part, name) {
            Ok(items) => {
                for item in items {
                    self.push(&mut parts, item);
                }
            }
            Err(trouble) => self.trouble = Some(trouble),
        }
        List::new(parts)
    }
}

/// The item at a place of a list, or else the value itself.
fn at(value: &Value, place: usize) -> &Value {
    value.get(place).unwrap_or(value)
}

/// A text, or the `name` of a part.
impl Part for Name {
    fn read(reader: &mut Reader, value: &Value) -> Name {
        let alloc = reader.alloc;
        let name = name_in(alloc, value.get("name").unwrap_or(value), "a name");
        reader.kept(name, Name::new(String::new(alloc)))
    }
}

/// The expression that a number or a text over these names is.
fn expr_of(alloc: Global, value: &Value, names: &[Name]) -> Option<Expr> {
    if let Some(number) = value.as_i64() {
        return Some(Expr::number(number));
    }
    if names.len() > 1_000 {
        return None;
    }
    match parse(alloc, value.as_str().unwrap_or("")) {
        Ok(parsed) => bind(alloc, &parsed, names).ok(),
        Err(_) => None,
    }
}

impl Part for Expr {
    fn read(reader: &mut Reader, value: &Value) -> Expr {
        let read = expr_of(reader.alloc, value, reader.names.as_slice());
        reader.kept(
            read.ok_or(Trouble::Member("an expression")),
            Expr::number(0),
        )
    }
}

impl Part for Param {
    fn read(reader: &mut Reader, value: &Value) -> Param {
        reader.form(value, 2, 3, "params");
        let name = Name::read(reader, at(value, 0));
        let kind = match at(value, 1).as_str() {
            Some("in") => ParamKind::Inherited,
            Some("is") => ParamKind::Derived(Expr::read(reader, at(value, 2))),
            Some("set") => ParamKind::Chosen,
            _ => {
                reader.trouble = Some(Trouble::Member("params"));
                ParamKind::Chosen
            }
        };
        Param {
            name,
            kind,
            low: 0,
            high: 9,
        }
    }
}

impl Part for Interface {
    fn read(reader: &mut Reader, value: &Value) -> Interface {
        reader.form(value, 2, 2, "an interface");
        Interface {
            name: Name::read(reader, at(value, 0)),
            rate: Expr::read(reader, at(value, 1)),
        }
    }
}

impl Part for Port {
    fn read(reader: &mut Reader, value: &Value) -> Port {
        reader.form(value, 2, 2, "a port");
        Port {
            name: Name::read(reader, at(value, 0)),
            rate: Expr::read(reader, at(value, 1)),
        }
    }
}

/// What an actor does.
fn body_of(reader: &mut Reader, actor: &Value) -> Body {
    if actor.get("graph").is_some() {
        Body::Child {
            graph: reader.kept(small(actor, "graph"), 0),
            args: reader.list(actor, "args"),
        }
    } else if actor.get("setgraph").is_some() {
        Body::ConfigChild {
            graph: reader.kept(small(actor, "setgraph"), 0),
            args: reader.list(actor, "args"),
            sets: reader.numbers(actor, "sets"),
        }
    } else if actor.get("config").is_some() {
        Body::Config {
            kernel: reader.kept(small(actor, "config"), 0),
            args: reader.list(actor, "args"),
            ins: reader.list(actor, "ins"),
            outs: reader.list(actor, "outs"),
            sets: reader.numbers(actor, "sets"),
        }
    } else {
        Body::Kernel {
            kernel: reader.kept(small(actor, "kernel"), 0),
            args: reader.list(actor, "args"),
            ins: reader.list(actor, "ins"),
            outs: reader.list(actor, "outs"),
        }
    }
}

impl Part for Actor {
    fn read(reader: &mut Reader, value: &Value) -> Actor {
        Actor {
            name: Name::read(reader, value),
            body: body_of(reader, value),
        }
    }
}

/// An end of a FIFO.
fn end_of(reader: &mut Reader, value: &Value) -> End {
    let first = reader.kept(small_of(at(value, 0), "an end"), 0);
    if !value.is_array() {
        return End::Interface(first);
    }
    reader.form(value, 2, 2, "an end");
    End::Port {
        actor: first,
        port: reader.kept(small_of(at(value, 1), "an end"), 0),
    }
}

/// The tokens of a delay: a list, or so many zeros.
pub(crate) fn delay_of(alloc: Global, value: &Value) -> Result<List<i64>, Trouble> {
    if let Some(list) = value.as_array() {
        return Ok(List::new(numbers_of(alloc, list.as_slice())?));
    }
    let count = small_of(value, "a delay")?;
    Ok(List::new(vec![in alloc; 0i64; count as usize]?))
}

/// The life that a FIFO states, or that version 1 gives to its delay.
fn life_in(reader: &mut Reader, value: &Value, delay: &[i64]) -> Life {
    let Some(life) = value.get(3usize) else {
        return life_of(1, reader.place == reader.top, Life::Firing, delay);
    };
    match life.as_str() {
        Some("firing") => Life::Firing,
        Some("permanent") => Life::Permanent,
        _ => {
            reader.trouble = Some(Trouble::Member("a life"));
            Life::Firing
        }
    }
}

impl Part for Fifo {
    fn read(reader: &mut Reader, value: &Value) -> Fifo {
        reader.form(value, 2, 4, "a FIFO");
        let alloc = reader.alloc;
        let none = List::new(Vec::new(alloc));
        let delay = match value.get(2usize) {
            Some(delay) => reader.kept(delay_of(alloc, delay), none),
            None => none,
        };
        let life = life_in(reader, value, delay.items());
        Fifo {
            tail: end_of(reader, at(value, 0)),
            head: end_of(reader, at(value, 1)),
            delay,
            life,
        }
    }
}

impl Part for Graph {
    fn read(reader: &mut Reader, value: &Value) -> Graph {
        let graph = Graph {
            name: Name::read(reader, value),
            params: reader.list(value, "params"),
            inputs: reader.list(value, "inputs"),
            outputs: reader.list(value, "outputs"),
            actors: reader.list(value, "actors"),
            fifos: reader.list(value, "fifos"),
            exports: reader.numbers(value, "exports"),
        };
        reader.place = reader.place.saturating_add(1);
        graph
    }
}

/// The names `p0` to `p99`.
fn param_names(alloc: Global) -> Result<Vec<Name>, Trouble> {
    let mut names = Vec::new(alloc);
    for place in 0..100u32 {
        names.push(Name::new(format!(in alloc; "p{place}")?))?;
    }
    Ok(names)
}

/// The row's graphs.
pub(crate) fn graphs_of(alloc: Global, row: &Value) -> Result<Graphs, Trouble> {
    let version = small_or(row, "version", 1)?;
    let top = small_or(row, "top", 0)?;
    let mut reader = Reader {
        alloc,
        names: param_names(alloc)?,
        top,
        place: 0,
        trouble: None,
    };
    let graphs = Graphs {
        version,
        top,
        graphs: reader.list(row, "graphs"),
    };
    match reader.trouble.take() {
        None => Ok(graphs),
        Some(trouble) => Err(trouble),
    }
}
