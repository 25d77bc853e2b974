// Laws of jobs, for whoever proves something above them. The functions do nothing; their contracts are the laws. They hold
// for tokens of any type, for faults of any type, and for any relation between a firing's inputs and its answer.
ghost use Rattle.job_flow.specs.GraphLaws.{GraphLaws};
ghost use Rattle.job_flow.specs.Laws.{JobsEndAsRuns, JobsFinish, ReadyStays, InputsStay, AnswersAdd, InputsHaveLens, FiringsReadRates, FramesFit, EdgesHavePorts, PortsAreUsed, EdgesArrive, NodesStandOnce, ReadyInAnyWords, InputsInAnyWords, QuietInAnyWords, FailureInOtherWords, EndedInAnyWords};

use sdf_level::TokenName;
use single_rate::{graphs_numbered, tokens_delivered};

/// The laws of single-rate graphs, in one.
fn graph_laws()
    ensures { GraphLaws }
{
    graphs_numbered();
}

/// A job in which each finished node had an answer that it may give, and each ready node is finished, ends as the run of
/// one thread does: with the fault of its first firing that failed, in the order of one thread, else with what the sinks keep
/// and what is left on the links. Without a fault every node is finished.
pub fn jobs_end_as_runs<T, F, R>()
    ensures runs { JobsEndAsRuns T F R }
    ensures finished { JobsFinish T F R }
{
    graph_laws();
    tokens_delivered::<T, F, R>();
}

/// A ready node stays ready when more nodes are finished, and reads the same. So the answers of a job stay such as may be
/// given when a ready node is finished with one.
pub fn ready_stays<T, F, R>()
    ensures ready { ReadyStays T F }
    ensures inputs { InputsStay T F }
    ensures answers { AnswersAdd T F R }
{}

/// What a ready node reads is as long as the edges into its ports, a firing's as its actor's rates say, and the frame of a node
/// that isn't a firing is such that the node can copy.
pub fn frames_told<T, F, R>()
    ensures inputs { InputsHaveLens T F R }
    ensures rates { FiringsReadRates T }
    ensures fit { FramesFit T }
{
    graph_laws();
    tokens_delivered::<TokenName, TokenName, TokenName>();
}

/// Each edge has a port at its tail and one at its head to itself, as long as its size, so that it alone arrives there; and what
/// a node writes that isn't an End or a Sink, an edge takes. Each node stands once in the list of nodes.
pub fn edges_have_ports<T>()
    ensures ports { EdgesHavePorts T }
    ensures used { PortsAreUsed T }
    ensures arrive { EdgesArrive T }
    ensures once { NodesStandOnce T }
{
    graph_laws();
    tokens_delivered::<TokenName, TokenName, TokenName>();
}

/// Which nodes are ready, what they read, whether anything is left to do and what a job leaves don't depend on how faults are
/// told; the first failure is told in the new words. So a code can stand for what a caller says of it.
pub fn faults_renamed<T, F, G>()
    ensures ready { ReadyInAnyWords T F G }
    ensures inputs { InputsInAnyWords T F G }
    ensures quiet { QuietInAnyWords T F G }
    ensures failure { FailureInOtherWords T F G }
    ensures ended { EndedInAnyWords T F G }
{}
