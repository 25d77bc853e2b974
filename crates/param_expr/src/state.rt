ghost use Rattle.std.specs.Prelude.{◌≡◌, Some};
ghost use Rattle.param_expr.specs.Machine.{Gives, closed, divided, end_of, joined, start, step, sum_with, term_with};

use crate::fault::ExprFault;
use crate::op::Op;
use crate::parsed::Parsed;
use crate::stack::Stack;
use crate::symbol::Symbol;
use std::alloc::Global;

/// A left operand and its operator.
#[derive(Drop)]
pub(crate) struct Lhs {
    pub(crate) operand: Parsed,
    pub(crate) op: Op,
}

/// The left operands that wait for their right ones: a sum, and in its next term a product.
#[derive(Drop)]
pub(crate) struct Waiting {
    pub(crate) sum: Option<Lhs>,
    pub(crate) term: Option<Lhs>,
}

/// What an open parenthesis began.
#[derive(Drop)]
pub(crate) enum Opened {
    Group,
    /// The first operand of `min` or `max`.
    First(Op),
    /// The second one, after the first.
    Second(Op, Parsed),
}

/// What waits outside an open parenthesis.
#[derive(Drop)]
pub(crate) struct Outer {
    pub(crate) waiting: Waiting,
    pub(crate) opened: Opened,
}

/// How far a parse is, with what waits outside each open parenthesis, the innermost first.
#[derive(Drop)]
pub(crate) enum State {
    /// An operand comes next.
    Want(Waiting, Stack<Outer>),
    /// `min` or `max` was read.
    Called(Op, Waiting, Stack<Outer>),
    /// An operand was read.
    Have(Waiting, Parsed, Stack<Outer>),
}

impl State {
    pub(crate) fn start(alloc: Global) -> State
        ensures { result ≡ start }
    {
        State::Want(Waiting::nothing(), Stack::new(alloc))
    }
}

impl Waiting {
    ghost use Rattle.param_expr.specs.Machine.{nothing};

    fn nothing() -> Waiting
        ensures { result ≡ nothing }
    {
        Waiting {
            sum: None,
            term: None,
        }
    }
}

/// Joins an operand to the left one that waits for it.
fn joined(alloc: Global, lhs: Option<Lhs>, rhs: Parsed) -> Result<Parsed, ExprFault>
    ensures { Gives 0 result (Some (joined lhs rhs)) }
{
    match lhs {
        None => Ok(rhs),
        Some(Lhs { operand, op }) => Ok(Parsed::binary(alloc, op, operand, rhs)?),
    }
}

/// The whole sum that ends with an operand.
fn sum(alloc: Global, waiting: Waiting, operand: Parsed) -> Result<Parsed, ExprFault>
    ensures { Gives 0 result (Some (sum_with waiting operand)) }
{
    let Waiting { sum, term } = waiting;
    let term = joined(alloc, term, operand)?;
    joined(alloc, sum, term)
}

/// After a right parenthesis behind a sum.
fn closed(alloc: Global, at: u32, sum: Parsed, mut rest: Stack<Outer>) -> Result<State, ExprFault>
    ensures { Gives at result (closed sum rest) }
{
    match rest.pop() {
        Some(Outer { waiting, opened }) => match opened {
            Opened::Group => Ok(State::Have(waiting, sum, rest)),
            Opened::Second(op, first) => Ok(State::Have(
                waiting,
                Parsed::binary(alloc, op, first, sum)?,
                rest,
            )),
            Opened::First(_) => Err(ExprFault::Syntax { at }),
        },
        None => Err(ExprFault::Syntax { at }),
    }
}

/// After a comma behind a sum.
fn divided(at: u32, sum: Parsed, mut rest: Stack<Outer>) -> Result<State, ExprFault>
    ensures { Gives at result (divided sum rest) }
{
    match rest.pop() {
        Some(Outer { waiting, opened }) => match opened {
            Opened::First(op) => {
                let opened = Opened::Second(op, sum);
                rest.push(Outer { waiting, opened })?;
                Ok(State::Want(Waiting::nothing(), rest))
            }
            _ => Err(ExprFault::Syntax { at }),
        },
        None => Err(ExprFault::Syntax { at }),
    }
}

/// After a symbol where an operand comes next.
fn step_want(
    at: u32,
    waiting: Waiting,
    mut rest: Stack<Outer>,
    symbol: Symbol,
) -> Result<State, ExprFault>
    ensures { Gives at result (step (State.Want waiting rest) symbol) }
{
    match symbol {
        Symbol::Number(value) => {
            // A number that i64 hasn't is told by the tally.
            let value = value.unwrap_or(0);
            Ok(State::Have(waiting, Parsed::number(value), rest))
        }
        Symbol::Word(name) => Ok(State::Have(waiting, Parsed::named(name), rest)),
        Symbol::Function(op) => Ok(State::Called(op, waiting, rest)),
        Symbol::Open => {
            let opened = Opened::Group;
            rest.push(Outer { waiting, opened })?;
            Ok(State::Want(Waiting::nothing(), rest))
        }
        _ => Err(ExprFault::Syntax { at }),
    }
}

/// After a symbol behind `min` or `max`.
fn step_called(
    at: u32,
    op: Op,
    waiting: Waiting,
    mut rest: Stack<Outer>,
    symbol: Symbol,
) -> Result<State, ExprFault>
    ensures { Gives at result (step (State.Called op waiting rest) symbol) }
{
    match symbol {
        Symbol::Open => {
            let opened = Opened::First(op);
            rest.push(Outer { waiting, opened })?;
            Ok(State::Want(Waiting::nothing(), rest))
        }
        _ => Err(ExprFault::Syntax { at }),
    }
}

/// After a symbol behind an operand.
fn step_have(
    alloc: Global,
    at: u32,
    waiting: Waiting,
    operand: Parsed,
    rest: Stack<Outer>,
    symbol: Symbol,
) -> Result<State, ExprFault>
    ensures { Gives at result (step (State.Have waiting operand rest) symbol) }
{
    match symbol {
        Symbol::Additive(op) => {
            let operand = sum(alloc, waiting, operand)?;
            let sum = Some(Lhs { operand, op });
            Ok(State::Want(Waiting { sum, term: None }, rest))
        }
        Symbol::Multiplicative(op) => {
            let Waiting { sum, term } = waiting;
            let operand = joined(alloc, term, operand)?;
            let term = Some(Lhs { operand, op });
            Ok(State::Want(Waiting { sum, term }, rest))
        }
        Symbol::Close => {
            let sum = sum(alloc, waiting, operand)?;
            closed(alloc, at, sum, rest)
        }
        Symbol::Comma => {
            let sum = sum(alloc, waiting, operand)?;
            divided(at, sum, rest)
        }
        _ => Err(ExprFault::Syntax { at }),
    }
}

/// After a symbol, if an expression can go on with it.
pub(crate) fn step(alloc: Global, at: u32, state: State, symbol: Symbol) -> Result<State, ExprFault>
    ensures { Gives at result (step state symbol) }
{
    match state {
        State::Want(waiting, rest) => step_want(at, waiting, rest, symbol),
        State::Called(op, waiting, rest) => step_called(at, op, waiting, rest, symbol),
        State::Have(waiting, operand, rest) => {
            step_have(alloc, at, waiting, operand, rest, symbol)
        }
    }
}

/// The expression at the end.
pub(crate) fn end(alloc: Global, at: u32, state: State) -> Result<Parsed, ExprFault>
    ensures { Gives at result (end_of state) }
{
    match state {
        State::Have(waiting, operand, mut rest) => match rest.pop() {
            None => sum(alloc, waiting, operand),
            Some(_) => Err(ExprFault::Syntax { at }),
        },
        _ => Err(ExprFault::Syntax { at }),
    }
}
