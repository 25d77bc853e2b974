ghost use Rattle.std.specs.Prelude.{◌≡◌, string_bytes, IfOk};
ghost use Rattle.graph_reader.specs.Place.{pointer_of, MisshapenAt};

use param_expr::Name;
use pisdf_model::DetailFault;
use std::alloc::{AllocError, Global};
use std::fmt::Write;

/// The way from the root of a JSON value to a value in it.
#[derive(Clone, Copy)]
pub(crate) enum Place<'a> {
    Root,
    Member(&'a Place<'a>, &'static str),
    Item(&'a Place<'a>, usize),
}

impl Place<'_> {
    /// The steps from the root, each after a `/`.
    fn steps(&self, alloc: Global) -> Result<String, AllocError>
        ensures { IfOk result (λ s. string_bytes s ≡ pointer_of self.now) }
    {
        match self {
            Place::Root => Ok(String::new(alloc)),
            Place::Member(up, name) => {
                let mut text = up.steps(alloc)?;
                text.push_str("/")?;
                text.push_str(name)?;
                Ok(text)
            }
            Place::Item(up, number) => {
                let mut text = up.steps(alloc)?;
                write!(text, "/{number}")?;
                Ok(text)
            }
        }
    }

    /// The fault that the value here has not the form.
    pub(crate) fn misshapen(&self, alloc: Global) -> DetailFault<Name>
        ensures { MisshapenAt (pointer_of self.now) result }
    {
        let Ok(mut text) = self.steps(alloc) else {
            return DetailFault::Memory;
        };
        if text.is_empty() && text.push_str("/").is_err() {
            return DetailFault::Memory;
        }
        DetailFault::Fault(Name::new(text))
    }
}
