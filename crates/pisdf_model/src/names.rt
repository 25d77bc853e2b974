ghost use Rattle.std.specs.Prelude.{◌≡◌, ◌==◌, [], ◌∷◌, ◌++◌, OnOk, map};
ghost use Rattle.pisdf_model.specs.Details.{Answers, Refuses};
ghost use Rattle.pisdf_model.specs.Names.{repeats, scoped};

use crate::detail_fault::DetailFault;
use crate::parts::Named;
use param_expr::Name;
use std::alloc::{AllocError, Global};
use std::collections::BTreeSet;

/// Within what a name stands once.
#[derive(Clone, Copy, Debug, PartialEq, Eq, PartialOrd, Ord)]
pub enum Scope {
    /// The graphs of a file.
    Graphs,
    /// The parameters, inputs, outputs and actors of the graph with this number.
    Parts { graph: usize },
    /// The ports of an actor of that graph.
    Ports { graph: usize, actor: usize },
}

/// A name of a file.
#[derive(Drop)]
pub struct ScopedName {
    pub scope: Scope,
    pub name: Name,
}

/// The fault at a name.
pub(crate) fn fault_at(name: &Name) -> DetailFault<Name>
    ensures { Refuses (name.now ∷ []) result }
{
    match name.clone() {
        Ok(name) => DetailFault::Fault(name),
        Err(_) => DetailFault::Memory,
    }
}

/// Whether each of these names differs from the earlier ones of its scope.
///
/// # Errors
///
/// - `Fault`: the first name that is equal to an earlier one of its scope.
/// - `Memory`: want of memory.
pub fn repeat(alloc: Global, names: &[ScopedName]) -> Result<(), DetailFault<Name>>
    ensures { Answers (repeats names.now) result }
{
    let mut seen = BTreeSet::new(alloc);
    for name in names {
        if !seen.insert((name.scope, name.name.text()))? {
            return Err(fault_at(&name.name));
        }
    }
    Ok(())
}

/// Puts a name behind others. The error is want of memory.
pub fn push_name(names: &mut Vec<ScopedName>, scope: Scope, name: &Name) -> Result<(), AllocError>
    ensures { OnOk result (names.new.items ≡ names.old.items ++ record { scope = scope; name = name.now } ∷ []) }
{
    let name = name.clone()?;
    names.push(ScopedName { scope, name })?;
    Ok(())
}

/// Puts the names of these parts, which are of one scope, behind others. The error is want of memory.
pub fn push_names<T: Named>(
    names: &mut Vec<ScopedName>,
    scope: Scope,
    parts: &[T],
) -> Result<(), AllocError>
    ensures { OnOk result (names.new.items ≡ names.old.items ++ scoped scope (map T.named parts.now)) }
{
    for part in parts {
        push_name(names, scope, part.name())?;
    }
    Ok(())
}
