// A slot, in which a value stands while a thread borrows it.
ghost use Rattle.std.specs.Prelude.{◌≡◌, IsSome, Some, None};

use std::mem;

/// What stands in a slot that isn't empty.
pub(crate) fn full<T>(slot: Option<T>) -> T
    requires { IsSome slot }
    ensures { slot ≡ Some result }
{
    match slot {
        Some(value) => value,
        None => unreachable!(),
    }
}

/// Takes out what stands in a slot that isn't empty.
pub(crate) fn take<T>(slot: &mut Option<T>) -> T
    requires { IsSome slot.old }
    ensures value { slot.old ≡ Some result }
    ensures empty { slot.new ≡ None }
{
    full(mem::replace(slot, None))
}

/// Puts this into an empty slot.
pub(crate) fn put<T>(slot: &mut Option<T>, value: T)
    requires { slot.old ≡ None }
    ensures { slot.new ≡ Some value }
{
    let none = mem::replace(slot, Some(value));
    let None = none else { unreachable!() };
}
