ghost use Rattle.std.specs.Prelude.{◌≡◌, ℕ, [], ◌∷◌, List as Seq, map};
ghost use Rattle.pisdf_model.specs.Count.{word_of};
ghost use Rattle.pisdf_model.specs.Details.{Answers, Refuses};
ghost use Rattle.pisdf_model.specs.Range.{InRange};
ghost use Rattle.pisdf_model.specs.WellFormed.{AnswersFaults, Stands, graphs_at, model_faults, with_number};
ghost use Rattle.pisdf_model.specs.declared.interface_wires.FifoPlace.{FifoPlace};
ghost use Rattle.pisdf_model.specs.declared.counting.Counted.{Counted};

use crate::counting::{Counted, count};
use crate::detail_fault::DetailFault;
use crate::duplicates::duplicate;
use crate::graph::Graphs;
use crate::interface_wires::{FifoPlace, interface_wire};
use crate::nesting::{depth, graph_cycle};
use crate::ordering::param_order;
use crate::port_counts::{AnyCounts, ports};
use crate::wires::wire;
use param_expr::Name;
use std::alloc::Global;

/// Why graphs are refused.
#[derive(Debug, Drop)]
pub enum ModelFault {
    /// The fault of this number stands, first at the part of this name: that of the graph at a FIFO where no FIFO may
    /// be, and the word for what there is too many of.
    Fault(u8, Name),
    /// Want of memory.
    Memory,
}

/// The answer of a check, with its number.
fn numbered(number: u8, answer: Result<(), DetailFault<Name>>) -> Result<(), ModelFault>
    ensures { (names : Seq (Seq ℕ)) → Answers names answer → AnswersFaults (with_number number names) result }
{
    match answer {
        Ok(()) => Ok(()),
        Err(DetailFault::Fault(name)) => Err(ModelFault::Fault(number, name)),
        Err(DetailFault::Memory) => Err(ModelFault::Memory),
    }
}

/// The answer at a FIFO, as one at its graph.
fn at_graph(answer: Result<(), DetailFault<FifoPlace>>) -> Result<(), DetailFault<Name>>
    ensures { (places : Seq FifoPlace) → Answers places answer → Answers (graphs_at places) result }
{
    match answer {
        Ok(()) => Ok(()),
        Err(DetailFault::Fault(place)) => Err(DetailFault::Fault(place.graph)),
        Err(DetailFault::Memory) => Err(DetailFault::Memory),
    }
}

/// The fault at what there is too many of.
fn word_fault(alloc: Global, counted: Counted) -> DetailFault<Name>
    ensures { Refuses (word_of counted ∷ []) result }
{
    match String::from_str(alloc, counted.word()) {
        Ok(word) => DetailFault::Fault(Name::new(word)),
        Err(_) => DetailFault::Memory,
    }
}

/// The answer at what there is too many of, as one at its word.
fn at_word(alloc: Global, answer: Result<(), DetailFault<Counted>>) -> Result<(), DetailFault<Name>>
    ensures { (all : Seq Counted) → Answers all answer → Answers (map word_of all) result }
{
    match answer {
        Ok(()) => Ok(()),
        Err(DetailFault::Fault(counted)) => Err(word_fault(alloc, counted)),
        Err(DetailFault::Memory) => Err(DetailFault::Memory),
    }
}

/// Whether graphs break no rule: the faults 4 and 7 to 13 of a graph file, but for those of kernels.
///
/// # Errors
///
/// - `Fault`: the fault of the least number, where it stands first.
/// - `Memory`: want of memory.
pub fn well_formed(alloc: Global, graphs: &Graphs) -> Result<(), ModelFault>
    requires { InRange graphs.now }
    ensures { AnswersFaults (model_faults graphs.now) result }
{
    numbered(4, duplicate(alloc, graphs))?;
    numbered(7, ports(alloc, &AnyCounts, graphs))?;
    numbered(8, wire(alloc, graphs))?;
    numbered(9, at_graph(interface_wire(graphs)))?;
    numbered(10, param_order(alloc, graphs))?;
    numbered(11, graph_cycle(alloc, graphs))?;
    numbered(12, depth(alloc, graphs))?;
    numbered(13, at_word(alloc, count(alloc, graphs)))
}
