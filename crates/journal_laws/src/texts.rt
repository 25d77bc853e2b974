ghost use Rattle.journal_laws.specs.Texts.{TextsAreOne, TextsGoOn, WholeTextsEnd};

use crate::lines::{entries_are_lines, lines_begin, paths_are_plain};
use crate::steps::{legal_journals_end, next_steps_are_one};
use board_rules::journals_grow;
use pisdf_meaning::{meanings_exist, one_meaning, runnable, sizes_kept};
use worker_crew::board_laws;

/// The text of the journals of a run's first boards, with that of the steps that were taken on the next, is the beginning of a
/// whole text.
pub fn texts_go_on()
    ensures { TextsGoOn }
{
    legal_journals_end();
    meanings_exist();
    runnable();
    sizes_kept();
}

/// Each whole text that has the same lines so far has the same boards and steps so far. And one that has all lines of a whole
/// text is that text.
pub fn texts_are_one()
    ensures steps { TextsAreOne }
    ensures whole { WholeTextsEnd }
{
    legal_journals_end();
    meanings_exist();
    runnable();
    sizes_kept();
    one_meaning();
    board_laws();
    next_steps_are_one();
    lines_begin();
    entries_are_lines();
    paths_are_plain();
    journals_grow();
}
