ghost use Rattle.std.specs.Prelude.{List as Seq, ℕ, map};
ghost use Rattle.std.specs.List.{flat_map};
ghost use Rattle.graph_reader.specs.Resolves.{Resolves};
ghost use Rattle.graph_reader.specs.Setting.{Setting, setting_of};

use crate::surroundings::Surroundings;
use param_expr::Name;
use pisdf_model::DetailFault;
use sdf_level::List;
use std::alloc::Global;

/// What a part of a file becomes where its names are resolved.
pub(crate) trait Resolved: Drop {
    /// The part of the file.
    type Source;

    /// The references of a part that name nothing, in the order of the file.
    ghost unknown: { Setting → Self.Source → Seq (Seq ℕ) };

    /// A part with places for names.
    ghost placed: { Setting → Self.Source → Self };

    fn resolve(
        alloc: Global,
        surroundings: &Surroundings<'_, '_>,
        source: &Self::Source,
    ) -> Result<Self, DetailFault<Name>>
        ensures { Resolves (unknown (setting_of surroundings.now) source.now) (placed (setting_of surroundings.now) source.now) result };
}

/// What the parts of a list become.
pub(crate) fn resolve_each<T: Resolved>(
    alloc: Global,
    surroundings: &Surroundings<'_, '_>,
    sources: &[T::Source],
) -> Result<List<T>, DetailFault<Name>>
    ensures { Resolves (flat_map (T.unknown (setting_of surroundings.now)) sources.now) (map (T.placed (setting_of surroundings.now)) sources.now) result }
{
    let mut resolved = Vec::new(alloc);
    for source in sources {
        let one = T::resolve(alloc, &*surroundings, source)?;
        resolved.push(one)?;
    }
    Ok(List::new(resolved))
}
