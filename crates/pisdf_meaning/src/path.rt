ghost use Rattle.std.specs.Prelude.{◌≡◌, IfOk};
ghost use Rattle.pisdf_meaning.specs.Endings.{child_path};

use param_expr::Name;
use std::alloc::{AllocError, Global};
use std::marker::Model;
use std::sync::Arc;

/// Where a job stands: the top graph's name, followed for each level by `/`, the hierarchical actor's name, `:` and
/// its firing number from 0. Contracts see it as that text.
#[derive(Drop)]
pub struct Path {
    written: Arc<Name>,
}

impl Model for Path {
    ghost use Rattle.std.specs.Prelude.{List, ℕ};
    ghost use Rattle.std.specs.Arc.{arc_value};

    ghost Value = { List ℕ };

    ghost view = { λ p. arc_value p.written };
}

impl Path {
    /// The path with this text.
    pub fn new(alloc: Global, text: Name) -> Result<Path, AllocError>
        ensures { IfOk result (λ p. p ≡ text) }
    {
        let written = Arc::new(alloc, text)?;
        Ok(Path { written })
    }

    /// An equal path, which shares the text.
    pub fn copy(&self) -> Result<Path, AllocError>
        ensures { IfOk result (λ p. p ≡ self.now) }
    {
        let written = Arc::try_clone(&self.written)?;
        Ok(Path { written })
    }

    /// The text.
    pub fn text(&self) -> &Name
        ensures { result.now ≡ self.now }
    {
        &self.written
    }
}

/// The path of a firing of an actor's graph in the job with this path.
pub(crate) fn child(
    alloc: Global,
    path: &Path,
    actor: &Name,
    firing: u32,
) -> Result<Path, AllocError>
    ensures { IfOk result (λ p. p ≡ child_path path.now actor.now firing) }
{
    let mut text = String::from_str(alloc, path.text().text())?;
    text.push_str("/")?;
    text.push_str(actor.text())?;
    text.push_str(":")?;
    let number = format!(in alloc; "{firing}")?;
    text.push_str(number.as_str())?;
    Path::new(alloc, Name::new(text))
}
