ghost use Rattle.std.specs.Prelude.{◌≡◌, ◌≤◌, length, IfOk, Result, Err};
ghost use Rattle.param_expr.specs.Named.{NamedTree};
ghost use Rattle.param_expr.specs.Grammar.{Spells};
ghost use Rattle.param_expr.specs.Limits.{most_expression_bytes};
ghost use Rattle.param_expr.specs.Machine.{answer_of, judged_of};
ghost use Rattle.param_expr.specs.Parse.{Answers, IsStated, SameUnlessMemory, UnlessMemory};
ghost use Rattle.param_expr.specs.declared.fault.ExprFault.{ExprFault};

use crate::fault::ExprFault;
use crate::limits::{MAX_EXPRESSION_BYTES, MAX_OPEN_PARENTHESES};
use crate::parsed::Parsed;
use crate::reader::{Reading, read};
use std::alloc::Global;

/// The expression that was read, unless the text has too large a number or is too deep.
fn judged(reading: Reading) -> Result<Parsed, ExprFault>
    ensures { result ≡ judged_of reading }
{
    let Reading { parsed, tally } = reading;
    match tally.large {
        Some(at) => Err(ExprFault::TooLarge { at }),
        None if tally.deepest > MAX_OPEN_PARENTHESES => Err(ExprFault::TooDeep),
        None => Ok(parsed),
    }
}

fn first_answer(alloc: Global, text: &str) -> Result<Parsed, ExprFault>
    ensures answer { UnlessMemory (Answers text.now) result }
    ensures memory { result ≡ Err ExprFault.Memory → length text.now ≤ most_expression_bytes }
{
    if text.len() > MAX_EXPRESSION_BYTES {
        return Err(ExprFault::TooLong);
    }
    let reading = read(alloc, text)?;
    judged(reading)
}

/// The expression that a text spells, by this grammar, with spaces between the tokens, before them
/// and after them:
///
/// ```text
/// sum    = term { ( "+" | "-" ) term }
/// term   = factor { ( "*" | "/" | "%" ) factor }
/// factor = number | name | "(" sum ")"
///        | ( "min" | "max" ) "(" sum "," sum ")"
/// ```
///
/// Tokens are the longest runs, and the operators of one line bind to the left. A text has one
/// answer, the first of the faults in this order that it shows.
///
/// # Errors
///
/// - `TooLong`: the text has more than `MAX_EXPRESSION_BYTES` bytes.
/// - `Syntax`: the grammar has no expression that goes on with the token at byte `at`, or that ends
///   where the text does, at its length.
/// - `TooLarge`: the number at byte `at` is the first over `i64::MAX`.
/// - `TooDeep`: more than `MAX_OPEN_PARENTHESES` parentheses are open at once, those of `min` and
///   `max` among them.
/// - `Memory`: want of memory.
pub fn parse(alloc: Global, text: &str) -> Result<Parsed, ExprFault>
    ensures answer { UnlessMemory (Answers text.now) result }
    // Such an answer is given, unless memory runs out.
    ensures only { (answer : Result NamedTree ExprFault) → Answers text.now answer → SameUnlessMemory result answer }
    ensures memory { result ≡ Err ExprFault.Memory → length text.now ≤ most_expression_bytes }
    // The one answer, as a function of the text.
    ensures computed { UnlessMemory (λ found. found ≡ answer_of text.now) result }
    // Its numbers are at least 0, and its names are names.
    ensures stated { IfOk result IsStated }
    // A text spells one tree at most.
    ensures one_tree { (a b : NamedTree) → Spells text.now a → Spells text.now b → a ≡ b }
{
    first_answer(alloc, text)
}
