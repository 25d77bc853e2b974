// Rows of ports.
ghost use Rattle.std.specs.Prelude.{◌≡◌, ◌++◌, ◌+◌, ◌<◌, ◌≤◌, Some, None, length, map, replicate, slice_index, slice_range, slice_set, IfOk};
ghost use Rattle.job_compiler.specs.Rows.{row_of};

use std::alloc::{AllocError, Global};
use std::marker::Model;

/// A port, with the edge that is known to it, or none. It takes half the memory of an `Option<u32>`.
#[derive(Debug, Drop)]
pub struct Port {
    /// The edge's number. Where none is known it is the greatest number, which no edge has.
    number: u32,
}

impl Model for Port {
    ghost use Rattle.std.specs.Prelude.{ℕ, Option};
    ghost use Rattle.job_compiler.specs.Rows.{edge_of};

    ghost Value = { Option ℕ };

    ghost view = { λ p. edge_of p.number };
}

impl Port {
    fn unused() -> Port
        ensures { result ≡ None }
    {
        Port { number: u32::MAX }
    }

    fn of(edge: u32) -> Port
        requires { edge < 4294967295 }
        ensures { result ≡ Some edge }
    {
        Port { number: edge }
    }

    /// The edge, if one is known.
    pub fn edge(&self) -> Option<u32>
        ensures { result ≡ self.now }
    {
        if self.number == u32::MAX {
            return None;
        }
        Some(self.number)
    }
}

/// For each node a row of ports. The rows lie in one list.
#[derive(Debug, Drop)]
pub struct Rows {
    ports: Vec<Port>,
    /// Where each row begins, and where the last one ends.
    starts: Vec<usize>,
}

impl Model for Rows {
    ghost use Rattle.std.specs.Prelude.{ℕ, List, Option};
    ghost use Rattle.job_compiler.specs.Rows.{rows_in, spans_of, KeepsStarts};

    ghost Value = { List (List (Option ℕ)) };

    ghost view = { λ r. rows_in r.ports.items (spans_of r.starts.items) };

    ghost invariant = { λ r. KeepsStarts r.ports.items r.starts.items };
}

/// Puts so many ports behind those that are there. No edge is known to them.
fn add_ports(ports: &mut Vec<Port>, count: usize) -> Result<(), AllocError>
    ensures { IfOk result (λ _. ports.new.items ≡ ports.old.items ++ replicate count None) }
{
    for _port in 0..count {
        ports.push(Port::unused())?;
    }
    Ok(())
}

/// The ports from one start to the next.
fn between<'a>(ports: &'a [Port], starts: &[usize], node: usize) -> &'a [Port]
    requires there { node + 1 < length starts.now }
    requires rises { slice_index starts.now node ≤ slice_index starts.now (node + 1) }
    requires within { slice_index starts.now (node + 1) ≤ length ports.now }
    ensures { result.now ≡ slice_range ports.now (slice_index starts.now node) (slice_index starts.now (node + 1)) }
{
    &ports[starts[node]..starts[node + 1]]
}

impl Rows {
    /// For each of these numbers a row of so many ports, to which no edge is known. Room is taken for as many ports as edges,
    /// since most ports have one.
    pub(crate) fn without_edges(
        alloc: Global,
        counts: &[usize],
        edges: usize,
    ) -> Result<Rows, AllocError>
        ensures { IfOk result (λ r. r ≡ map (λ count. replicate count None) counts.now) }
    {
        let mut ports = Vec::with_capacity(alloc, edges)?;
        let mut starts = Vec::with_capacity(alloc, counts.len() + 1)?;
        starts.push(0)?;
        for count in counts {
            add_ports(&mut ports, *count)?;
            starts.push(ports.len())?;
        }
        Ok(Rows { ports, starts })
    }

    /// The ports of a node.
    pub fn row(&self, node: usize) -> &[Port]
        requires { node < length self.now }
        ensures { result.now ≡ row_of self.now node }
    {
        between(&self.ports, &self.starts, node)
    }

    /// An edge is known to a port.
    pub(crate) fn put(&mut self, node: usize, port: usize, edge: u32)
        requires there { node < length self.old }
        requires port { port < length (row_of self.old node) }
        requires edge { edge < 4294967295 }
        ensures { self.new ≡ slice_set self.old node (slice_set (row_of self.old node) port (Some edge)) }
    {
        let start = self.starts[node];
        self.ports[start + port] = Port::of(edge);
    }
}
