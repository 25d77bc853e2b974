// What the calls of a table mean to boards. The functions do nothing; their contracts are laws.
ghost use Rattle.board_rules.specs.JobLaws.{JobsHaveLaws};
ghost use Rattle.firing_board.specs.Table.Images.{FullBuffersHoldTokens, ImagesAreOne, ReadBuffersAreFull};
ghost use Rattle.firing_board.specs.Table.LiveFirings.{FiringsKeepOrder, LiveBuffersOfFirings};
ghost use Rattle.firing_board.specs.Table.Laws.{CallsAreFit, ClaimsSuit, FinishesSuit, FirstCallsAreFit, KeysAreRows, OpeningsSuit, StartsSuit, TablesMark, TablesOpen, TablesStart};

use board_rules::paths_stay;
use job_flow::{edges_have_ports, frames_told, ready_stays};
use job_rules::{jobs_mean_firings, rules_are_lawful};
use one_job::live_buffers_are_apart;
use pisdf_meaning::{Refusal, runnable};
use single_rate::graphs_numbered;

/// Each call changes the table of open jobs as the rules of boards say: one mark of one row, or that and one row more. So where
/// the table stood for the marks of a board, it stands for the marks after the step, and keeps paths and the rows round others.
pub(crate) fn tables_suit()
    ensures starts_with { TablesStart }
    ensures marks { TablesMark }
    ensures opens { TablesOpen }
    ensures keys { KeysAreRows }
    ensures start { StartsSuit }
    ensures opening { OpeningsSuit }
    ensures claim { ClaimsSuit }
    ensures finish { FinishesSuit }
{
    rules_are_lawful();
}

/// The laws of the jobs of a board, in one.
fn job_laws()
    ensures { JobsHaveLaws }
{
    rules_are_lawful();
    jobs_mean_firings();
    runnable();
    graphs_numbered();
    ready_stays::<i64, Refusal, ()>();
    frames_told::<i64, Refusal, u64>();
    edges_have_ports::<i64>();
}

/// On a board only firings are called that are given what their graphs take.
pub fn calls_are_fit()
    ensures kept { CallsAreFit }
    ensures first { FirstCallsAreFit }
{
    job_laws();
}

/// In the state that a legal journal leaves, the nodes of each open firing were claimed in the order of its edges. So two of its
/// buffers that are live share no cell, where a compilation of its graph places them. A buffer is live from the claim of the node
/// that writes it to the finish of the node that reads it. A node that calls a firing is claimed until that firing is closed.
pub fn live_buffers_stay_apart()
    ensures order { FiringsKeepOrder }
    ensures apart { LiveBuffersOfFirings }
{
    live_buffers_are_apart();
    job_laws();
}

/// In the state that a legal journal leaves, the cells of an open firing hold what its nodes gave: wherever the node that writes a
/// buffer is finished without a refusal, and the node that reads it isn't finished, the buffer's cells hold what the first gave
/// there. So each buffer that a claimed node reads holds what was written for it. The cells are those of a block in which each step
/// wrote the outputs of the nodes that it finished, at the offsets of a compilation of the firing's graph. What the board was
/// started with, the path of the firing and the steps of the journal tell them.
pub fn full_buffers_keep_tokens()
    ensures full { FullBuffersHoldTokens }
    ensures read { ReadBuffersAreFull }
    ensures one { ImagesAreOne }
{
    live_buffers_stay_apart();
    job_laws();
    edges_have_ports::<i64>();
    paths_stay();
}
