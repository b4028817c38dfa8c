// Deques in a ring: each thread owns one, and steals from the one of the next thread.

ghost use Rattle.std.specs.Prelude.{◌≡◌, ◌<◌, ◌≤◌, [], IfOk, vec_len, vec_capacity};
ghost use Rattle.workpool.specs.Rings.{AreBack, AreIdle, AreSettled, IsRing};

use crate::deque::{Owner, Thief, ends, settle};
use basis::NoMemory;
use std::alloc::Global;

/// What a thread has of the deques: the one that it owns, and the end of another that it steals from.
#[derive(Drop)]
pub struct Seat {
    pub owner: Owner,
    pub thief: Thief,
}

/// So many deques without jobs, each stolen from by the thread before its owner, the first one by the
/// last. The error is want of memory, E901.
pub fn new_ring(alloc: Global, count: usize) -> Result<Vec<Seat>, NoMemory>
    requires { 0 < count }
    ensures count { IfOk result (λ seats. vec_len seats ≡ count) }
    ensures linked { IfOk result (λ seats. IsRing seats.items) }
    ensures idle { IfOk result (λ seats. AreIdle seats.items) }
{
    let mut seats = Vec::new(alloc);
    let (owner, first) = ends(alloc)?;
    let mut last = owner;
    for _ in 1..count {
        let (next, thief) = ends(alloc)?;
        seats.push(Seat { owner: last, thief })?;
        last = next;
    }
    seats.push(Seat {
        owner: last,
        thief: first,
    })?;
    Ok(seats)
}

/// Gives each thief's end back to the owner of its deque, once all seats are in one thread, puts the
/// owners into the list, which has room for them, and answers how many jobs are left in all deques,
/// modulo 2^64. Nothing is allocated.
pub fn settle_all(seats: Vec<Seat>, owners: &mut Vec<Owner>) -> usize
    requires ring { IsRing seats.items }
    requires none { owners.old.items ≡ [] }
    requires room { vec_len seats ≤ vec_capacity owners.old }
    ensures back { AreBack seats.items owners.new.items }
    ensures settled { AreSettled owners.new.items result }
{
    let mut seats = seats;
    let Some(
        Seat {
            owner,
            thief: first,
        },
    ) = seats.pop()
    else {
        return 0;
    };
    let mut last = owner;
    let mut left = 0usize;
    while let Some(Seat { owner, thief }) = seats.pop() {
        let (whole, more) = settle(last, thief);
        owners.push_reserved(whole);
        left = left.wrapping_add(more);
        last = owner;
    }
    let (whole, more) = settle(last, first);
    owners.push_reserved(whole);
    left.wrapping_add(more)
}
