// The passes of a lock, and the state while a pass holds it.
ghost use Rattle.std.specs.Prelude.{◌≡◌, [], length};
ghost use Rattle.board_lock.specs.Passes.{MayLeave, known_after};
ghost use Rattle.std.specs.Borrow.{Lends, sem};

use crate::lock::{FREE, Lock};
use crate::locked::Locked;
use crate::rule::Leaves;
use crate::view::View;
use atomic_table::Seat;
use std::marker::Model;

pub(crate) type StateSeat<S> = Seat<
    Option<Box<S>>,
    View<S, <S as Locked>::Key, <S as Locked>::Entry, <S as Locked>::Place>,
>;

/// What a worker knows of the state, and the right to enter the lock. Contracts see it as its lock and what it knows. One that
/// is dropped takes its numbers with it, and then no pass can close the lock.
#[derive(Drop)]
pub struct Pass<S: Locked> {
    pub(crate) seat: StateSeat<S>,
    pub(crate) number: u32,
    pub(crate) count: u32,
}

impl<S: Locked> Model for Pass<S> {
    ghost use Rattle.board_lock.specs.Passes.{PassView};

    ghost Value = { PassView S.Key S.Entry S.Place };

    ghost use Rattle.std.specs.Prelude.{◌≡◌, ◌+◌, ◌<◌, ◌^◌, [], length};
    ghost use Rattle.board_lock.specs.declared.view.Phase.TheVariants.{Open};

    ghost view = { λ p. record { lock = p.seat.table_id; known = p.seat.me.0.known } };

    ghost invariant = { λ p. (p.number ≡ p.seat.me.0.known.number) × (p.count ≡ length p.seat.me.0.known.own) × (p.number + p.count < 2 ^ 32) × (p.seat.me.0.phase ≡ Open) × (p.seat.me.1 ≡ []) };
}

impl<S: Locked> Pass<S> {
    /// The least of its numbers.
    pub fn number(&self) -> u32
        ensures { result ≡ self.now.known.number }
    {
        self.number
    }

    /// How many numbers it has.
    pub fn count(&self) -> u32
        ensures { result ≡ length self.now.known.own }
    {
        self.count
    }
}

/// The state, while a pass holds it, beside the pass's turn. The state lies in a box, so that it moves in one word.
pub struct Held<'a, S: Locked> {
    pub turn: Turn<'a, S>,
    pub state: Box<S>,
}

/// A pass's turn at the lock, which is the right to put the state back. Contracts see it as the lock, what the pass knows,
/// and the state as it was found.
pub struct Turn<'a, S: Locked> {
    pub(crate) lock: &'a Lock<S>,
    pub(crate) seat: StateSeat<S>,
    pub(crate) number: u32,
    pub(crate) count: u32,
}

impl<'a, S: Locked> Model for Turn<'a, S> {
    ghost use Rattle.board_lock.specs.Passes.{TurnView};

    ghost Value = { TurnView S S.Key S.Entry S.Place };

    ghost use Rattle.std.specs.Prelude.{◌≡◌, ◌+◌, ◌<◌, ◌^◌, [], ◌∷◌, None, length};
    ghost use Rattle.board_lock.specs.declared.view.Phase.TheVariants.{Holding};

    ghost view = { λ t. record { lock = t.seat.table_id; known = t.seat.me.0.known; found = t.seat.me.0.found } };

    ghost invariant = { λ t. (t.seat.table_id ≡ t.lock.now) × (t.number ≡ t.seat.me.0.known.number) × (t.count ≡ length t.seat.me.0.known.own) × (t.number + t.count < 2 ^ 32) × (t.seat.me.0.phase ≡ Holding) × (t.seat.me.1 ≡ (0, None) ∷ []) };
}

impl<'a, S: Locked> Held<'a, S> {
    ghost use mir.Syntax.{named};
    ghost use Rattle.board_lock.specs.contracts.pass.Held.{the_row};

    /// The least number of the pass that holds the state.
    pub fn number(&self) -> u32
        ensures { result ≡ self.now.turn.known.number }
    {
        self.turn.number
    }

    /// The state, to be changed in place.
    pub fn state(&mut self) -> &mut S
        ensures value { result.now ≡ self.old.state.value }
        ensures* lends { sem 𝓛 (Lends (the_row (record { mir = named 1; lft = [] }) S.row S.Key.row S.Entry.row S.Place.row S.Locked) S.row self.entry result (λ w. record self.old { state = record self.old.state { value = w } })) }
    {
        &mut self.state
    }

    /// Puts the state back, and frees the lock. The state has the key with which it was found. Its journal is as found, or
    /// has more entries, all of the pass's number. What is lent to other numbers is as found. It is over where it was
    /// found over.
    pub fn leave(self) -> Pass<S>
        requires { MayLeave S.meant self.turn.known self.turn.found self.state.value }
        ensures lock { result.lock ≡ self.entry.turn.lock }
        ensures known { result.known ≡ known_after S.meant self.entry.turn.known self.entry.state.value }
    {
        let Held { turn, state } = self;
        let Turn {
            lock,
            mut seat,
            number,
            count,
        } = turn;
        let none = lock.table.shared.exchange(&mut seat, 0, Some(state));
        let None = none else { unreachable!() };
        lock.table.shared.store::<Leaves<S>>(&mut seat, 0, FREE);
        Pass {
            seat,
            number,
            count,
        }
    }
}
