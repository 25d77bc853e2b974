// Names and refusals.
ghost use Rattle.std.specs.Prelude.{◌≡◌, IfOk};
ghost use Rattle.pisdf_meaning.specs.Endings.{IfRefused};

use crate::path::Path;
use crate::refusal::{Cause, PlainFault, Refusal};
use param_expr::Name;
use std::alloc::{AllocError, Global};

/// A name with the same text.
pub fn copy_name(alloc: Global, name: &Name) -> Result<Name, AllocError>
    ensures { IfOk result (λ n. n ≡ name.now) }
{
    Ok(Name::new(String::from_str(alloc, name.text())?))
}

/// A refusal of the job with this path.
pub fn refused(path: &Path, cause: Cause) -> PlainFault
    ensures { IfRefused (λ refusal. refusal ≡ record { path = path.now; cause = cause }) result }
{
    match path.copy() {
        Ok(path) => PlainFault::Refused(Refusal { path, cause }),
        Err(_) => PlainFault::Memory,
    }
}

/// The refusal where a kernel faults.
pub(crate) fn kernel_refused(
    alloc: Global,
    path: &Path,
    actor: &Name,
    firing: u32,
    code: u8,
) -> PlainFault
    ensures { IfRefused (λ refusal. refusal ≡ record { path = path.now; cause = Cause.Kernel actor.now firing code }) result }
{
    match copy_name(alloc, actor) {
        Ok(actor) => refused(
            path,
            Cause::Kernel {
                actor,
                firing,
                code,
            },
        ),
        Err(_) => PlainFault::Memory,
    }
}
