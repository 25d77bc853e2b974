//! An example of what a lock may keep, and of how workers take turns at it.
ghost use Rattle.std.specs.Prelude.{◌≡◌, true, [], ◌∷◌, ◌++◌, IfOk, IfErr, if◌then◌else◌};
ghost use Rattle.board_lock.specs.Passes.{LendsNothing, Later, first_gains};
ghost use Rattle.lock_calls.specs.Tallied.{tally_meant};

use board_lock::{Lock, Locked, NotMade, Pass};
use std::alloc::Global;
use std::sync::Wait;

/// What a worker has counted at a time.
#[derive(Clone, Copy, Drop)]
pub struct Count {
    pub worker: u32,
    pub amount: u64,
}

/// A drawer that a worker has.
#[derive(Clone, Copy, Drop)]
pub struct Drawer {
    pub worker: u32,
    pub label: u64,
}

/// What workers have counted, which drawers they have, and whether there is nothing more to count.
#[derive(Drop)]
pub struct Tally {
    pub name: u64,
    pub counts: Vec<Count>,
    pub drawers: Vec<Drawer>,
    pub closed: bool,
}

impl Locked for Tally {
    ghost use Rattle.lock_calls.specs.Tallied.{tally_meant};

    type Key = u64;

    type Entry = Count;

    type Place = Drawer;

    ghost meant = { tally_meant };
}

/// Whether the tally is closed, which is left as it is.
pub fn look<R: Wait>(rt: &R, lock: &Lock<Tally>, pass: Pass<Tally>) -> (Pass<Tally>, bool)
    requires { pass.lock ≡ lock.now }
    ensures lock { result.0.lock ≡ lock.now }
    ensures later { Later pass.known result.0.known }
    ensures own { result.0.known.own ≡ first_gains pass.known.own [] }
    ensures lent { result.0.known.lent ≡ pass.known.lent }
    ensures closed { result.1 ≡ result.0.known.over }
{
    let held = lock.enter(rt, pass);
    let closed = held.state.closed;
    (held.leave(), closed)
}

/// Adds a count by the pass's number, and closes the tally after the last count. It is false where there is no memory,
/// and then the tally is left as it is.
pub fn add<R: Wait>(
    rt: &R,
    lock: &Lock<Tally>,
    pass: Pass<Tally>,
    amount: u64,
    last: bool,
) -> (Pass<Tally>, bool)
    requires { pass.lock ≡ lock.now }
    ensures lock { result.0.lock ≡ lock.now }
    ensures later { Later pass.known result.0.known }
    ensures own { result.0.known.own ≡ first_gains pass.known.own (if result.1 then record { worker = pass.known.number; amount = amount } ∷ [] else []) }
    ensures lent { result.0.known.lent ≡ pass.known.lent }
    ensures over { result.1 ≡ true → last ≡ true → result.0.known.over ≡ true }
{
    let worker = pass.number();
    let mut held = lock.enter(rt, pass);
    let tally = held.state();
    if tally.counts.push(Count { worker, amount }).is_err() {
        return (held.leave(), false);
    }
    tally.closed = tally.closed || last;
    (held.leave(), true)
}

/// Lends one more drawer to the pass's number. It is false where there is no memory, and then the tally is left as it is.
#[tactic(auto, using(crate::proofs::Places::drawers_here, crate::proofs::Places::lent_longer))]
pub fn lend<R: Wait>(
    rt: &R,
    lock: &Lock<Tally>,
    pass: Pass<Tally>,
    label: u64,
) -> (Pass<Tally>, bool)
    requires { pass.lock ≡ lock.now }
    ensures lock { result.0.lock ≡ lock.now }
    ensures later { Later pass.known result.0.known }
    ensures own { result.0.known.own ≡ first_gains pass.known.own [] }
    ensures lent { result.0.known.lent ≡ first_gains pass.known.lent (if result.1 then record { worker = pass.known.number; label = label } ∷ [] else []) }
{
    let worker = pass.number();
    let mut held = lock.enter(rt, pass);
    let tally = held.state();
    if tally.drawers.push(Drawer { worker, label }).is_err() {
        return (held.leave(), false);
    }
    (held.leave(), true)
}

/// Two workers in turn: the first adds a count, the second looks. What comes back tells whether there was memory for it.
pub fn in_turn<R: Wait>(
    rt: &R,
    alloc: Global,
    tally: Tally,
    amount: u64,
    last: bool,
) -> Result<(Tally, bool), NotMade<Tally>>
    requires { LendsNothing tally_meant tally }
    ensures name { IfOk result (λ r. r.0.name ≡ tally.name) }
    ensures counts { IfOk result (λ r. r.0.counts.items ≡ tally.counts.items ++ (if r.1 then record { worker = 0; amount = amount } ∷ [] else [])) }
    ensures drawers { IfOk result (λ r. LendsNothing tally_meant r.0) }
    ensures still { IfOk result (λ r. tally.closed ≡ true → r.0.closed ≡ true) }
    ensures closed { IfOk result (λ r. r.1 ≡ true → last ≡ true → r.0.closed ≡ true) }
    ensures refused { IfErr result (λ r. r.state ≡ tally) }
{
    match Lock::start(alloc, tally, 2) {
        Ok((lock, all)) => {
            let (first, second) = lock.split(all, 1);
            let (first, added) = add(rt, &lock, first, amount, last);
            let (second, _) = look(rt, &lock, second);
            let all = lock.join(first, second);
            let tally = lock.close(all);
            Ok((tally, added))
        }
        Err(refused) => Err(refused),
    }
}
