// The leases of a node's ports, out of the pool and back.
ghost use Rattle.std.specs.Prelude.{ℤ, List as Seq, ◌≡◌, ◌+◌, ◌<◌, ◌≤◌, ◌∷◌, [], true, false, length, map, vec_capacity, if◌then◌else◌};
ghost use Rattle.split_block.specs.View.{IsWhole, lease_place};
ghost use Rattle.split_block.specs.Places.{window};
ghost use Rattle.one_job.specs.Places.{buffer_at};
ghost use Rattle.one_job.specs.Taking.{taken, IsOpen, CanTake, TakesBehind, IsDue, AreDue, IsOne, with_lease, with_leases};

use cell_pool::Pool;
use job_compiler::Port;
use sdf_level::{Edge, List};
use split_block::Lease;
use std::alloc::Global;

/// The cells of an edge's buffer.
fn take_buffer(pool: &mut Pool, edges: &[Edge], offsets: &[u32], edge: u32) -> Lease
    requires inside { edge < length edges.now }
    requires placed { length offsets.now ≡ length edges.now }
    requires open { IsOpen (buffer_at edges.now offsets.now edge) pool.old.block.len pool.old.most pool.old.out }
    ensures lease { let p = buffer_at edges.now offsets.now edge in
        result ≡ record { block = pool.old.block; start = p.start; cells = window p.start p.len pool.old.cells } }
    ensures pool { pool.new ≡ record pool.old { out = buffer_at edges.now offsets.now edge ∷ pool.old.out } }
{
    pool.take(offsets[edge as usize], edges[edge as usize].size)
}

/// Takes the cells of each port's edge, or an empty lease where it has none, behind the leases that are there.
pub(crate) fn take_ports(
    pool: &mut Pool,
    edges: &[Edge],
    offsets: &[u32],
    ports: &[Port],
    leases: &mut Vec<Lease>,
    alloc: Global,
)
    requires placed { length offsets.now ≡ length edges.now }
    requires can { CanTake (buffer_at edges.now offsets.now) (length edges.now) pool.old.block.len pool.old.most ports.now pool.old.out }
    requires room { length leases.old.items + length ports.now ≤ vec_capacity leases.old }
    ensures leases { TakesBehind (buffer_at edges.now offsets.now) pool.old ports.now leases.old.items leases.new.items }
    ensures capacity { vec_capacity leases.new ≡ vec_capacity leases.old }
    ensures pool { pool.new ≡ record pool.old { out = taken (buffer_at edges.now offsets.now) ports.now pool.old.out } }
{
    for port in ports {
        let lease = match port.edge() {
            Some(edge) => take_buffer(pool, edges, offsets, edge),
            None => Lease::from_vec(Vec::new(alloc)),
        };
        leases.push_reserved(lease);
    }
}

/// Takes one lease back.
fn give_one(pool: &mut Pool, lease: Lease)
    requires { IsDue lease pool.old }
    ensures { pool.new ≡ with_lease lease pool.old }
{
    if lease.as_slice().is_empty() {
        drop(lease.into_vec());
    } else {
        pool.give(lease);
    }
}

/// Takes leases back, which empties their list.
fn give_all(pool: &mut Pool, leases: &mut Vec<Lease>)
    requires { AreDue leases.old.items pool.old }
    ensures pool { pool.new ≡ with_leases leases.old.items pool.old }
    ensures empty { leases.new.items ≡ [] }
    ensures capacity { vec_capacity leases.new ≡ vec_capacity leases.old }
{
    while let Some(lease) = leases.pop() {
        give_one(pool, lease);
    }
}

/// Takes its one lease, which is a block of its own, from a list, and gives the tokens in it.
fn take_tokens(leases: &mut Vec<Lease>, alloc: Global) -> Vec<i64>
    requires { IsOne leases.old.items }
    ensures tokens { (tokens : Seq ℤ) → map (λ l. l.cells) leases.old.items ≡ tokens ∷ [] → result.items ≡ tokens }
    ensures empty { leases.new.items ≡ [] }
    ensures capacity { vec_capacity leases.new ≡ vec_capacity leases.old }
{
    match leases.pop() {
        Some(lease) => lease.into_vec(),
        None => Vec::new(alloc),
    }
}

/// Takes back the leases of a node's outputs, which empties their list, and gives the tokens that are stored.
pub(crate) fn give_outputs(
    pool: &mut Pool,
    stored: bool,
    leases: &mut Vec<Lease>,
    alloc: Global,
) -> Vec<i64>
    requires one { stored ≡ true → IsOne leases.old.items }
    requires due { stored ≡ false → AreDue leases.old.items pool.old }
    ensures pool { pool.new ≡ (if stored then pool.old else with_leases leases.old.items pool.old) }
    ensures empty { leases.new.items ≡ [] }
    ensures capacity { vec_capacity leases.new ≡ vec_capacity leases.old }
    ensures tokens { (tokens : Seq ℤ) → stored ≡ true → map (λ l. l.cells) leases.old.items ≡ tokens ∷ [] → result.items ≡ tokens }
{
    if stored {
        return take_tokens(leases, alloc);
    }
    give_all(pool, leases);
    Vec::new(alloc)
}

/// Takes back the leases of a node's inputs, which empties their list. Tokens that were stored are given up.
pub(crate) fn give_inputs(pool: &mut Pool, stored: bool, leases: &mut Vec<Lease>, alloc: Global)
    requires one { stored ≡ true → IsOne leases.old.items }
    requires due { stored ≡ false → AreDue leases.old.items pool.old }
    ensures pool { pool.new ≡ (if stored then pool.old else with_leases leases.old.items pool.old) }
    ensures empty { leases.new.items ≡ [] }
    ensures capacity { vec_capacity leases.new ≡ vec_capacity leases.old }
{
    let _read = give_outputs(pool, stored, leases, alloc);
}
