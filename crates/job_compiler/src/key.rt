ghost use Rattle.std.specs.Prelude.{◌≡◌, IfOk};

use sdf_level::List;
use std::alloc::{AllocError, Global};
use std::hash::{Hash, Hasher};

/// What a kept compilation is found by: its graph, the number of workers, and the values of the graph's inherited and then of
/// its chosen parameters.
#[derive(Debug, Drop)]
pub struct Key {
    pub graph: u32,
    pub workers: u32,
    pub values: List<i64>,
}

impl Key {
    /// An equal key.
    ///
    /// # Errors
    ///
    /// Want of memory.
    pub fn copy(&self, alloc: Global) -> Result<Key, AllocError>
        ensures { IfOk result (λ copy. copy ≡ self.now) }
    {
        Ok(Key {
            graph: self.graph,
            workers: self.workers,
            values: List::new(Vec::from_slice(alloc, self.values.items())?),
        })
    }
}

impl PartialEq for Key {
    ghost use Rattle.std.proofs.Common.{rules};
    ghost use Rattle.std.specs.Cmp.Rules.{comparing};
    ghost use Rattle.job_compiler.specs.Keys.{is_key};

    ghost eq = { is_key };

    ghost laws = { Prim.search (comparing, rules) };

    fn eq(&self, other: &Key) -> bool {
        self.graph == other.graph
            && self.workers == other.workers
            && self.values.items() == other.values.items()
    }
}

impl Eq for Key {
    ghost use Rattle.std.proofs.Common.{rules};
    ghost use Rattle.std.specs.Cmp.Rules.{comparing};

    ghost laws = { Prim.search (comparing, rules) };
}

impl Hash for Key {
    ghost use Rattle.std.specs.Prelude.{◌++◌};
    ghost use Rattle.std.proofs.Common.{rules};
    ghost use Rattle.std.specs.Hash as fed;
    ghost use Rattle.std.specs.Cmp.Rules.{hashing};

    ghost hash_input = { λ k. fed.u32 k.graph ++ fed.u32 k.workers ++ fed.slice fed.i64 k.values };

    ghost respects_eq = { Prim.search (hashing, rules) };

    fn hash<H: Hasher>(&self, state: &mut H) {
        self.graph.hash(state);
        self.workers.hash(state);
        self.values.items().hash(state);
    }
}
