ghost use Rattle.std.specs.Prelude.{◌≡◌, IfOk, OnOk, pos, false, true, codes, string_bytes};
ghost use Rattle.std.specs.List.{AllPass, list_all};
ghost use Rattle.std.specs.Ordering.{int_eq};
ghost use Rattle.serde_json.specs.Data.{member, object};
ghost use Rattle.serde_json.specs.View.{view};
ghost use Rattle.param_expr.specs.Eval.{in_i64};
ghost use Rattle.graph_format.specs.Canonical.{delay_value, end_members, fifo_value, whole_value};
ghost use Rattle.graph_format.specs.Named.{named_fifo, stated_delay};
ghost use Rattle.graph_format.specs.States.{life_text};

use crate::list::{Writer, list};
use crate::members::{with, with_text};
use crate::names::end_text;
use graph_format::FileFifo;
use pisdf_model::{Fifo, Graph, Graphs, Life};
use serde_json::{Map, Value};
use std::alloc::{AllocError, Global};

/// Writes tokens.
#[derive(Clone, Copy)]
struct Tokens;

impl Writer for Tokens {
    type Part = i64;

    type Stated = i64;

    ghost IsWritable = { λ w token. Unit {0} };

    ghost named = { λ w token. token };

    ghost shown = { λ w. whole_value };

    ghost IsKept = { λ token. in_i64 token ≡ true };

    fn value(&self, _alloc: Global, token: &i64) -> Result<Value, AllocError> {
        let token = *token;
        Ok(Value::from(token))
    }
}

/// Whether each token is 0.
fn are_zeros(tokens: &[i64]) -> bool
    ensures { result ≡ list_all (λ token. int_eq token (pos 0)) tokens.now }
{
    tokens.iter().all(|token| *token == 0)
}

/// A delay: a number where all its tokens are 0, else a list.
fn delay(alloc: Global, tokens: &[i64]) -> Result<Value, AllocError>
    ensures shown { IfOk result (λ v. view v ≡ delay_value (stated_delay tokens.now)) }
    ensures kept { OnOk result (AllPass in_i64 tokens.now) }
{
    if are_zeros(tokens) {
        Ok(Value::from(tokens.len()))
    } else {
        list(alloc, &Tokens, tokens)
    }
}

/// A FIFO without a delay.
fn undelayed(alloc: Global, from: String, to: String) -> Result<Value, AllocError>
    ensures { IfOk result (λ v. view v ≡ object (end_members false Life.Firing (string_bytes from) (string_bytes to))) }
{
    let members = with(alloc, Map::new(alloc), "to", Value::String(to))?;
    let members = with(alloc, members, "from", Value::String(from))?;
    Ok(Value::Object(members))
}

/// A FIFO with a delay, whose life isn't stated.
fn delayed(alloc: Global, from: String, to: String, delay: Value) -> Result<Value, AllocError>
    ensures { IfOk result (λ v. view v ≡ object (member (codes "delay") (view delay) (end_members false Life.Firing (string_bytes from) (string_bytes to)))) }
{
    let members = with(alloc, Map::new(alloc), "to", Value::String(to))?;
    let members = with(alloc, members, "from", Value::String(from))?;
    let members = with(alloc, members, "delay", delay)?;
    Ok(Value::Object(members))
}

fn life_text(life: Life) -> &'static str
    ensures { result.now ≡ life_text life }
{
    match life {
        Life::Firing => "firing",
        Life::Permanent => "permanent",
    }
}

/// A FIFO with a delay and its life.
fn living(
    alloc: Global,
    from: String,
    to: String,
    delay: Value,
    life: Life,
) -> Result<Value, AllocError>
    ensures { IfOk result (λ v. view v ≡ object (member (codes "delay") (view delay) (end_members true life (string_bytes from) (string_bytes to)))) }
{
    let members = with(alloc, Map::new(alloc), "to", Value::String(to))?;
    let members = with_text(alloc, members, "life", life_text(life))?;
    let members = with(alloc, members, "from", Value::String(from))?;
    let members = with(alloc, members, "delay", delay)?;
    Ok(Value::Object(members))
}

/// Writes FIFOs of a graph.
#[derive(Clone, Copy)]
pub(crate) struct Fifos<'a> {
    pub(crate) graphs: &'a Graphs,
    pub(crate) graph: &'a Graph,
}

impl Writer for Fifos<'_> {
    type Part = Fifo;

    type Stated = FileFifo;

    ghost IsWritable = { λ w fifo. Unit {0} };

    ghost named = { λ w fifo. named_fifo w.graphs.now w.graph.now fifo };

    ghost shown = { λ w. fifo_value w.graphs.now.version };

    ghost IsKept = { λ fifo. AllPass in_i64 fifo.delay };

    fn value(&self, alloc: Global, fifo: &Fifo) -> Result<Value, AllocError> {
        let from = end_text(alloc, self.graphs, self.graph, fifo.tail)?;
        let to = end_text(alloc, self.graphs, self.graph, fifo.head)?;
        let tokens = fifo.delay.items();
        if tokens.is_empty() {
            return undelayed(alloc, from, to);
        }
        let delay = delay(alloc, tokens)?;
        if self.graphs.version < 2 {
            return delayed(alloc, from, to, delay);
        }
        living(alloc, from, to, delay, fifo.life)
    }
}
