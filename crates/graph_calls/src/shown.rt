// Graphs as a short text, in which `#2` is the parameter at place 2, and lists as JSON texts.
use param_expr::{Expr, ExprForm, Name, Op};
use pisdf_model::{Actor, Body, End, Fifo, Graph, Graphs, Interface, Life, Param, ParamKind, Port};
use sdf_level::List;
use std::alloc::{AllocError, Global};
use std::fmt::{Debug, Display};

/// A text that is being written, and whether there was memory for all of it.
#[derive(Drop)]
pub(crate) struct Writing {
    text: String,
    pub(crate) is_whole: bool,
}

/// What is written as a text.
pub(crate) trait Shown {
    /// Writes it behind a text.
    fn show(&self, writing: &mut Writing);
}

impl Writing {
    /// Writes words behind the text.
    pub(crate) fn put<D: Display + Drop>(&mut self, words: D) {
        match self.text.write_fmt(words) {
            Ok(()) => {}
            Err(_refused) => self.is_whole = false,
        }
    }

    /// Writes parts behind the text, each with these words before it.
    pub(crate) fn put_each<T: Shown>(&mut self, before: &str, parts: &[T]) {
        for part in parts {
            self.put(before);
            part.show(self);
        }
    }

    /// Writes a list behind the text and this letter, where its parts are written as JSON texts.
    pub(crate) fn put_list<T: Shown>(&mut self, letter: char, parts: &[T]) {
        self.put(letter);
        let mut before = '[';
        for part in parts {
            self.put(before);
            part.show(self);
            before = ',';
        }
        self.put(if parts.is_empty() { "[]" } else { "]" });
    }
}

/// The text that is written.
pub(crate) fn text_of<T: Shown>(alloc: Global, part: &T) -> Result<String, AllocError> {
    let mut writing = Writing {
        text: String::new(alloc),
        is_whole: true,
    };
    part.show(&mut writing);
    let Writing { text, is_whole } = writing;
    if is_whole { Ok(text) } else { Err(AllocError) }
}

impl Shown for i64 {
    fn show(&self, writing: &mut Writing) {
        writing.put(*self);
    }
}

impl Shown for u32 {
    fn show(&self, writing: &mut Writing) {
        writing.put(*self);
    }
}

/// A number, or `null`.
impl Shown for Option<i64> {
    fn show(&self, writing: &mut Writing) {
        match self {
            Some(number) => writing.put(*number),
            None => writing.put("null"),
        }
    }
}

/// A list of numbers, as a JSON text.
impl<T: Debug> Shown for List<T> {
    fn show(&self, writing: &mut Writing) {
        writing.put(format_args!("{:?}", self.items()));
    }
}

impl Shown for Name {
    fn show(&self, writing: &mut Writing) {
        writing.put(self.text());
    }
}

fn sign(op: Op) -> &'static str {
    match op {
        Op::Add => "+",
        Op::Sub => "-",
        Op::Mul => "*",
        Op::Div => "/",
        Op::Rem => "%",
        Op::Min => "min",
        Op::Max => "max",
    }
}

impl Shown for Expr {
    fn show(&self, writing: &mut Writing) {
        match &self.form {
            ExprForm::Number(value) => writing.put(*value),
            ExprForm::Param(place) => writing.put(format_args!("#{place}")),
            ExprForm::Binary(op, lhs, rhs) => {
                writing.put("(");
                lhs.show(writing);
                writing.put(sign(*op));
                rhs.show(writing);
                writing.put(")");
            }
        }
    }
}

impl Shown for Param {
    fn show(&self, writing: &mut Writing) {
        writing.put(format_args!("{}:", self.name.text()));
        match &self.kind {
            ParamKind::Inherited => writing.put("in"),
            ParamKind::Derived(expr) => expr.show(writing),
            ParamKind::Chosen => writing.put("set"),
        }
        writing.put(format_args!("[{},{}]", self.low, self.high));
    }
}

impl Shown for Interface {
    fn show(&self, writing: &mut Writing) {
        writing.put(format_args!("{}:", self.name.text()));
        self.rate.show(writing);
    }
}

impl Shown for Port {
    fn show(&self, writing: &mut Writing) {
        writing.put(format_args!("{}:", self.name.text()));
        self.rate.show(writing);
    }
}

impl Shown for Actor {
    fn show(&self, writing: &mut Writing) {
        writing.put(self.name.text());
        match &self.body {
            Body::Kernel {
                kernel,
                args,
                ins,
                outs,
            } => {
                writing.put(format_args!(" kernel {kernel}"));
                writing.put_each(" ", args.items());
                writing.put_each(" <", ins.items());
                writing.put_each(" >", outs.items());
            }
            Body::Config {
                kernel,
                args,
                ins,
                outs,
                sets,
            } => {
                writing.put(format_args!(" config {kernel}"));
                writing.put_each(" ", args.items());
                writing.put_each(" <", ins.items());
                writing.put_each(" >", outs.items());
                writing.put_each(" set ", sets.items());
            }
            Body::Child { graph, args } => {
                writing.put(format_args!(" graph {graph}"));
                writing.put_each(" ", args.items());
            }
            Body::ConfigChild { graph, args, sets } => {
                writing.put(format_args!(" setgraph {graph}"));
                writing.put_each(" ", args.items());
                writing.put_each(" set ", sets.items());
            }
        }
    }
}

impl Shown for Fifo {
    fn show(&self, writing: &mut Writing) {
        match self.tail {
            End::Interface(place) => writing.put(format_args!("{place} to ")),
            End::Port { actor, port } => writing.put(format_args!("{actor}.{port} to ")),
        }
        match self.head {
            End::Interface(place) => writing.put(format_args!("{place}")),
            End::Port { actor, port } => writing.put(format_args!("{actor}.{port}")),
        }
        writing.put_each(" ", self.delay.items());
        match self.life {
            Life::Firing => writing.put(" anew"),
            Life::Permanent => writing.put(" on"),
        }
    }
}

impl Shown for Graph {
    fn show(&self, writing: &mut Writing) {
        writing.put(self.name.text());
        writing.put_each(" ", self.params.items());
        writing.put_each(" <", self.inputs.items());
        writing.put_each(" >", self.outputs.items());
        writing.put_each(" export ", self.exports.items());
        writing.put_each("\n  ", self.actors.items());
        writing.put_each("\n  ", self.fifos.items());
    }
}

/// The version and the place of the top graph, then the graphs.
impl Shown for Graphs {
    fn show(&self, writing: &mut Writing) {
        writing.put(format_args!("{} {}", self.version, self.top));
        writing.put_each("\n", self.graphs.items());
    }
}
