use crate::bits::{has_bit, write_neither};
use placement_checker::Exclusion;
use std::marker::Model;

/// The exclusions among the buffers of a graph, which are its edges: two of them may share cells
/// exactly where a path of at least one edge leads from the head of one to the tail of the other
/// (Desnos et al., memory exclusion graphs). Contracts see it as the list of the edges, each a pair
/// of its tail and its head.
#[derive(Debug, Drop)]
pub struct Reach {
    pub(crate) edges: Vec<(u32, u32)>,
    /// Words to a row.
    pub(crate) width: usize,
    /// A row for each node, of the edges from whose heads a path of at least one edge leads to it.
    pub(crate) before: Vec<u64>,
    /// A row for each node, of the edges to whose tails a path of at least one edge leads from it.
    pub(crate) behind: Vec<u64>,
}

impl Model for Reach {
    ghost use Rattle.std.specs.Prelude.{ℕ, List};

    ghost Value = { List (ℕ × ℕ) };

    ghost use Rattle.memory_exclusion.specs.Closure.{IsReach, turned};

    ghost view = { λ r. r.edges.items };

    ghost invariant = { λ r. IsReach r.edges.items r.width r.before.items × IsReach (turned r.edges.items) r.width r.behind.items };
}

impl Exclusion for Reach {
    ghost use Rattle.std.specs.Prelude.{length};
    ghost use Rattle.memory_exclusion.specs.Paths.{Excludes};

    ghost range = { λ edges. length edges };

    ghost excludes = { λ edges e f. Excludes edges e f };

    fn range(&self) -> u32 {
        self.edges.len() as u32
    }

    fn excludes(&self, e: u32, f: u32) -> bool {
        !self.shares(e, f)
    }

    fn write_row(&self, e: u32, row: &mut [u64]) {
        let (tail, head) = self.edges[e as usize];
        write_neither(
            self.width,
            &self.before,
            tail as usize,
            &self.behind,
            head as usize,
            row,
        );
    }
}

impl Reach {
    ghost use Rattle.std.specs.Prelude.{◌≡◌, ◌↔◌, ◌<◌, ◌⊎◌, length, IsFalse};
    ghost use Rattle.memory_exclusion.specs.Paths.{Excludes};

    /// Whether two buffers may share cells. It reads the rows of the ends of `e` alone.
    fn shares(&self, e: u32, f: u32) -> bool
        requires e { e < length self.now }
        requires f { f < length self.now }
        ensures { IsFalse result ↔ Excludes self.now e f }
    {
        let (tail, head) = self.edges[e as usize];
        has_bit(&self.before, self.width, tail as usize, f as usize)
            || has_bit(&self.behind, self.width, head as usize, f as usize)
    }
}
