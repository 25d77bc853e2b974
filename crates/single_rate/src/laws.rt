// Laws of single-rate graphs and of what flows over their edges, for whoever proves something above them. The functions do
// nothing; their contracts are the laws. Those of flows hold for tokens of any type, for faults of any type, and for any
// relation between a firing's inputs and its answer.
ghost use Rattle.single_rate.specs.Laws.{GraphsHaveOneFlow, FlowsDeliver, RunsEndInFlows, RunsEndInFaults};
ghost use Rattle.single_rate.specs.Tiers.{NodesAreFound, NodesStandOnce, FiringsAreThere, FiringsStandInOrder, FiringsAreAll, GraphsHaveTiers, EndsAreThere, EdgesHaveTokens, NamesHaveLengths};
ghost use Rattle.single_rate.specs.Ports.{EdgesHavePorts, PortsAreUsed};

use sdf_level::repetition_suffices;

/// Where sources, delays and firings give as many tokens as their rates say, there is exactly one way in which tokens flow
/// over the edges of a level's graph, and what arrives at each port of each firing, at each sink and at the end of each
/// delay is what queues without a bound feed there. So a run over the edges ends as the run of one thread, also where a
/// firing meets a fault.
pub fn tokens_delivered<T, F, R>()
    ensures one_flow { GraphsHaveOneFlow T }
    ensures delivers { FlowsDeliver T }
    ensures runs { RunsEndInFlows T F R }
    ensures faults { RunsEndInFaults T F R }
{
    repetition_suffices();
}

/// The nodes and edges of a level's graph by their numbers. Each node stands once in the list, the firings in the order of one
/// thread. Edges lead from earlier tiers to later ones, and so do firings. No edge is empty. At each node its edges have ports
/// of their own, and one leaves at each port where the node has tokens to give. Names of tokens are as many as the level asks
/// for.
pub fn graphs_numbered()
    ensures found { NodesAreFound }
    ensures once { NodesStandOnce }
    ensures firings { FiringsAreThere }
    ensures in_order { FiringsStandInOrder }
    ensures all { FiringsAreAll }
    ensures tiers { GraphsHaveTiers }
    ensures ends { EndsAreThere }
    ensures tokens { EdgesHaveTokens }
    ensures names { NamesHaveLengths }
    ensures ports { EdgesHavePorts }
    ensures used { PortsAreUsed }
{
    repetition_suffices();
}
