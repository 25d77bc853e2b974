use crate::answer::Mark;
use job_compiler::Compiled;
use param_resolver::{Early, LevelSet};
use pisdf_meaning::{Configured, Firing};
use sdf_level::{Edge, List};
use std::sync::Arc;

/// One open job: a firing of a graph, and where each of its items stands. Its configuration actors have the numbers from 0 on in
/// file order, then comes its compilation, and then the nodes of its single-rate graph, once it is compiled.
#[derive(Drop)]
pub struct Job {
    pub firing: Firing,
    /// What is known of the graph before its configuration actors fire.
    pub early: Early,
    /// The place of each configuration actor among all actors of the graph.
    pub places: Vec<usize>,
    pub marks: Vec<Mark>,
    /// The numbers of the items that may be offered, in no order: each free item that waits for nothing is among them.
    pub candidates: Vec<usize>,
    /// How many items a worker runs or have an open call.
    pub running: usize,
    /// What its compilation made.
    pub nodes: Option<Nodes>,
}

/// What the compilation of a job made.
#[derive(Drop)]
pub struct Nodes {
    /// What each configuration actor left.
    pub left: Vec<Configured>,
    pub compiled: Arc<Compiled>,
    pub set: LevelSet,
    /// The values of the graph's parameters.
    pub values: List<i64>,
    /// The tokens of each source of the level.
    pub sources: List<List<i64>>,
    /// The tokens with which each link of the level begins.
    pub starts: Vec<Vec<i64>>,
    /// Of each actor of the level whether its state goes on.
    pub keeps: Vec<bool>,
    /// For each node the edges into it, in their order.
    pub into: Vec<Vec<Edge>>,
    /// For each node the edges out of it, in their order.
    pub out_of: Vec<Vec<Edge>>,
    /// For each node how many edges lead into it from nodes that haven't given anything yet.
    pub waits: Vec<u32>,
}
