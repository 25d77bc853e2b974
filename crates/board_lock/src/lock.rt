// The lock.
ghost use Rattle.std.specs.Prelude.{◌≡◌, ◌+◌, ◌<◌, [], Some, IfOk, IfErr, length};
ghost use Rattle.board_lock.specs.Passes.{LendsNothing, Finds, first_known, seen_in, first_part, second_part, joined};
ghost use Rattle.board_lock.specs.Rule.{first_view};

use crate::locked::Locked;
use crate::pass::{Held, Pass, StateSeat, Turn};
use crate::pauses::Pauses;
use crate::rule::{Cut, Keeps, Leaves, Merge, Opening, Rule, Starts, Tries};
use crate::view::View;
use atomic_table::Table;
use std::alloc::{AllocError, AllocFailed, Global};
use std::marker::{Brand, Model};
use std::sync::Wait;

// The word of the table.
pub(crate) const FREE: u64 = 0;

const HELD: u64 = 1;

type StateTable<S> = Table<
    Option<Box<S>>,
    View<S, <S as Locked>::Key, <S as Locked>::Entry, <S as Locked>::Place>,
    Opening<Box<S>>,
    Rule<S>,
    Global,
>;

/// A state that one worker at a time has. Contracts see a lock as its name. It isn't dropped, but closed.
pub struct Lock<S: Locked> {
    pub(crate) table: StateTable<S>,
}

impl<S: Locked> Model for Lock<S> {
    ghost use Rattle.atomic_table.specs.Seated.{TableId, table_id_coded};

    ghost Value = { TableId };

    ghost coded = { table_id_coded };

    ghost use Rattle.std.specs.Prelude.{◌≡◌};

    ghost view = { λ l. l.table.shared.table_id };

    ghost invariant = { λ l. (l.table.shared.table_id.words ≡ 1) × (l.table.shared.table_id.slots ≡ 1) };
}

/// There was no memory. The state is as it was given.
#[derive(Drop)]
pub struct NotMade<S> {
    pub state: S,
}

impl<S: Locked> Lock<S> {
    /// A lock round this state, and the pass of all numbers below `workers`, which has seen its journal. The one error is
    /// that there is no memory.
    pub fn start(alloc: Global, state: S, workers: u32) -> Result<(Lock<S>, Pass<S>), NotMade<S>>
        requires some { 0 < workers }
        requires lent { LendsNothing S.meant state }
        ensures lock { IfOk result (λ r. r.1.lock ≡ r.0) }
        ensures known { IfOk result (λ r. r.1.known ≡ first_known S.meant state workers) }
        ensures refused { IfErr result (λ r. r.state ≡ state) }
    {
        match Box::new(alloc, state) {
            Ok(state) => Lock::boxed(alloc, state, workers),
            Err(AllocFailed { value }) => Err(NotMade { state: value }),
        }
    }

    fn boxed(alloc: Global, state: Box<S>, workers: u32) -> Result<(Lock<S>, Pass<S>), NotMade<S>>
        requires some { 0 < workers }
        requires lent { LendsNothing S.meant state.value }
        ensures lock { IfOk result (λ r. r.1.lock ≡ r.0) }
        ensures known { IfOk result (λ r. r.1.known ≡ first_known S.meant state.value workers) }
        ensures refused { IfErr result (λ r. r.state ≡ state.value) }
    {
        let about = Opening { state, workers };
        let made = Table::vacant(alloc, &[HELD], 1, &about);
        let Opening { state, workers: _ } = about;
        match made {
            Ok((table, seat)) => Ok(Lock::filled(table, seat, state, workers)),
            Err(AllocError) => Err(NotMade {
                state: Box::into_inner(state),
            }),
        }
    }

    // The table begins as held, with an empty slot, which the first seat takes, fills and gives back.
    fn filled(
        table: StateTable<S>,
        mut seat: StateSeat<S>,
        state: Box<S>,
        workers: u32,
    ) -> (Lock<S>, Pass<S>)
        requires some { 0 < workers }
        requires lent { LendsNothing S.meant state.value }
        requires table { (table.shared.table_id.words ≡ 1) × (table.shared.table_id.slots ≡ 1) × (table.shared.key ≡ record { state = state; workers = workers }) }
        requires seat { (seat.table_id ≡ table.shared.table_id) × (seat.me ≡ (first_view S.meant state.value workers, [])) }
        ensures lock { result.1.lock ≡ result.0 }
        ensures known { result.1.known ≡ first_known S.meant state.value workers }
    {
        table.shared.load::<Starts<S>>(&mut seat, 0);
        let none = table.shared.exchange(&mut seat, 0, Some(state));
        let None = none else { unreachable!() };
        table.shared.store::<Leaves<S>>(&mut seat, 0, FREE);
        (
            Lock { table },
            Pass {
                seat,
                number: 0,
                count: workers,
            },
        )
    }

    /// Takes the state out of the lock, once no other pass holds it. After a try that is lost the thread pauses, longer each
    /// time, and lets other threads run at last: nothing is known of how long that takes.
    pub fn enter<'a, R: Wait>(&'a self, rt: &R, pass: Pass<S>) -> Held<'a, S>
        requires { pass.lock ≡ self.now }
        ensures finds { Finds S.meant pass.known result.state.value }
        ensures lock { result.turn.lock ≡ self.now }
        ensures known { result.turn.known ≡ seen_in S.meant pass.known result.state.value }
        ensures found { result.turn.found ≡ Some result.state.value }
    {
        let Pass {
            mut seat,
            number,
            count,
        } = pass;
        let mut pauses = Pauses::new();
        for _ in rt.forever() {
            if self
                .table
                .shared
                .compare_exchange::<Tries<S>>(&mut seat, 0, FREE, HELD)
                == FREE
            {
                let Some(state) = self.table.shared.exchange(&mut seat, 0, None) else {
                    unreachable!()
                };
                return Held {
                    turn: Turn {
                        lock: self,
                        seat,
                        number,
                        count,
                    },
                    state,
                };
            }
            pauses.pause();
        }
        unreachable!()
    }

    /// Cuts a pass in two: the first keeps the first `at` numbers, the second has the others.
    pub fn split(&self, pass: Pass<S>, at: u32) -> (Pass<S>, Pass<S>)
        requires lock { pass.lock ≡ self.now }
        requires inside { (0 < at) × (at < length pass.known.own) }
        ensures first { (result.0.lock ≡ self.now) × (result.0.known ≡ first_part at pass.known) }
        ensures second { (result.1.lock ≡ self.now) × (result.1.known ≡ second_part at pass.known) }
    {
        self.split_as::<Brand>(pass, at)
    }

    fn split_as<C: Keeps>(&self, pass: Pass<S>, at: u32) -> (Pass<S>, Pass<S>)
        requires lock { pass.lock ≡ self.now }
        requires inside { (0 < at) × (at < length pass.known.own) }
        requires numbers { C.numbers ≡ at }
        ensures first { (result.0.lock ≡ self.now) × (result.0.known ≡ first_part at pass.known) }
        ensures second { (result.1.lock ≡ self.now) × (result.1.known ≡ second_part at pass.known) }
    {
        let Pass {
            mut seat,
            number,
            count,
        } = pass;
        let other = self.table.shared.split_seat::<Cut<C>>(&mut seat);
        (
            Pass {
                seat,
                number,
                count: at,
            },
            Pass {
                seat: other,
                number: number + at,
                count: count - at,
            },
        )
    }

    /// Makes two passes one, where the numbers of the second begin where those of the first end.
    pub fn join(&self, first: Pass<S>, second: Pass<S>) -> Pass<S>
        requires first { first.lock ≡ self.now }
        requires second { second.lock ≡ self.now }
        requires beside { first.known.number + length first.known.own ≡ second.known.number }
        ensures lock { result.lock ≡ self.now }
        ensures known { result.known ≡ joined first.known second.known }
    {
        let Pass {
            mut seat,
            number,
            count,
        } = first;
        let Pass {
            seat: other,
            number: _,
            count: more,
        } = second;
        self.table.shared.join_seat::<Merge>(&mut seat, other);
        Pass {
            seat,
            number,
            count: count + more,
        }
    }

    /// Gives the state back, once one pass has every number.
    pub fn close(self, pass: Pass<S>) -> S
        requires lock { pass.lock ≡ self }
        requires all { (pass.known.number ≡ 0) × (length pass.known.own ≡ pass.known.workers) }
        ensures { Finds S.meant pass.known result }
    {
        let Lock { table } = self;
        let Pass {
            seat,
            number: _,
            count: _,
        } = pass;
        let mut closed = table.close_with(seat);
        let Some(state) = closed.take(0) else {
            unreachable!()
        };
        closed.free();
        Box::into_inner(state)
    }
}
