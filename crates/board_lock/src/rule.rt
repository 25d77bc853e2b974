// The rule of the table, and the names of its steps.
ghost use Rattle.std.specs.Prelude.{ℕ};
ghost use Rattle.board_lock.specs.Rule.{Kept, first_view, first_view_part, second_view_part, joined_view, spent_view};
ghost use Rattle.board_lock.specs.Plays.{started, tried, left};

use crate::locked::Locked;
use crate::view::View;
use atomic_table::{Join, Play, Split, TableRule};
use std::marker::{Brand, PhantomData};

/// What the table is told once.
pub struct Opening<S> {
    pub state: S,
    pub workers: u32,
}

/// The rule, `Kept`.
pub struct Rule<S> {
    of: PhantomData<S>,
}

impl<S: Locked> TableRule<Option<Box<S>>, View<S, S::Key, S::Entry, S::Place>, Opening<Box<S>>>
    for Rule<S> {
    ghost holds = { λ about s. Kept S.meant about.state.value about.workers s };

    ghost first = { λ about. first_view S.meant about.state.value about.workers };
}

/// The load by which the first seat takes the empty slot.
pub struct Starts<S> {
    of: PhantomData<S>,
}

impl<S: Locked> Play<Option<Box<S>>, View<S, S::Key, S::Entry, S::Place>> for Starts<S> {
    ghost then = { started };
}

/// The compare_exchange by which a seat tries to take the lock.
pub struct Tries<S> {
    of: PhantomData<S>,
}

impl<S: Locked> Play<Option<Box<S>>, View<S, S::Key, S::Entry, S::Place>> for Tries<S> {
    ghost then = { tried S.meant };
}

/// The store that frees the lock.
pub struct Leaves<S> {
    of: PhantomData<S>,
}

impl<S: Locked> Play<Option<Box<S>>, View<S, S::Key, S::Entry, S::Place>> for Leaves<S> {
    ghost then = { left S.meant };
}

/// How many numbers the first of two passes keeps. Each call of a program picks it.
pub trait Keeps {
    ghost numbers: { ℕ };
}

impl Keeps for Brand {
    ghost numbers = { 0 };
}

/// A view is cut in two after so many numbers.
pub struct Cut<C> {
    of: PhantomData<C>,
}

impl<C: Keeps, S, K, E, P> Split<View<S, K, E, P>> for Cut<C> {
    ghost left = { first_view_part C.numbers };

    ghost right = { second_view_part C.numbers };
}

/// Two views are made one.
pub struct Merge;

impl<S, K, E, P> Join<View<S, K, E, P>> for Merge {
    ghost both = { joined_view };

    ghost spent = { spent_view };
}
