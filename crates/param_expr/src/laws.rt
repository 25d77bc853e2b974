// A law of the definitions, for whoever proves something above them. The function does nothing; its contract is the law.
ghost use Rattle.std.specs.Prelude.{◌≡◌, ℕ, List as Seq, Result};
ghost use Rattle.param_expr.specs.Machine.{answer_of};
ghost use Rattle.param_expr.specs.Named.{NamedTree};
ghost use Rattle.param_expr.specs.Parse.{Answers};
ghost use Rattle.param_expr.specs.declared.fault.ExprFault.{ExprFault};

/// Each text has exactly one answer by the grammar: the tree that it spells, or the first of the faults that it shows. It
/// is what reading the text symbol by symbol comes to.
pub fn one_answer()
    ensures is { (text : Seq ℕ) → Answers text (answer_of text) }
    ensures only { (text : Seq ℕ) (answer : Result NamedTree ExprFault) → Answers text answer → answer ≡ answer_of text }
{}
