// Laws of verdicts.
ghost use Rattle.journal_audit.specs.Laws.{VerdictsAreOne};

use pisdf_meaning::one_meaning;

/// A text has at most one verdict: a run has so many boards whoever runs it, and only one line is the first bad one.
pub fn verdicts_are_one()
    ensures { VerdictsAreOne }
{
    one_meaning();
}
