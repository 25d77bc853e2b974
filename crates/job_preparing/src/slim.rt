// Firings and what configuration actors left, without what no compilation looks at.
ghost use Rattle.std.specs.Prelude.{◌≡◌, ◌∷◌, ◌++◌, IfOk};
ghost use Rattle.job_preparing.specs.Slim.{slim_firing, slim_left, slim_one};

use pisdf_meaning::{Configured, Firing, copy_tokens};
use sdf_level::List;
use std::alloc::{AllocError, Global};

/// The firing without its tokens and its state.
pub(crate) fn slim_firing(alloc: Global, firing: &Firing) -> Result<Firing, AllocError>
    ensures { IfOk result (λ f. f ≡ slim_firing firing.now) }
{
    Ok(Firing {
        path: firing.path.copy()?,
        graph: firing.graph,
        inherited: copy_tokens(alloc, firing.inherited.items())?,
        inputs: List::new(Vec::new(alloc)),
        state: List::new(Vec::new(alloc)),
    })
}

/// The values alone that a configuration actor sets.
fn slim_one(alloc: Global, one: &Configured) -> Result<Configured, AllocError>
    ensures { IfOk result (λ c. c ≡ slim_one one.now) }
{
    Ok(Configured {
        outs: List::new(Vec::new(alloc)),
        sets: copy_tokens(alloc, one.sets.items())?,
        state: List::new(Vec::new(alloc)),
        trace: List::new(Vec::new(alloc)),
    })
}

/// The same of each.
pub(crate) fn slim_left(alloc: Global, left: &[Configured]) -> Result<Vec<Configured>, AllocError>
    ensures { IfOk result (λ v. v.items ≡ slim_left left.now) }
{
    let mut slim = Vec::with_capacity(alloc, left.len())?;
    for one in left {
        slim.push(slim_one(alloc, one)?)?;
    }
    Ok(slim)
}
