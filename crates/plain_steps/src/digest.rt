// What the hash of a state is fed (specs/Digest.antt).

ghost use Rattle.std.specs.Prelude.{◌≡◌, slice_get};
ghost use Rattle.vmodel.specs.Digest.{digest_with, digest_of_end, digest_of_vector, digest_of_values, stand_of as stand_of_frame, digest_of_processes, digest_of_half, digest_of_set, digest_of_list, digest_of_part, digest_of_parts, digest_of_updates, digest_of_update_list, digest_of_time, digest_of_future, digest_of_last, digest_of_processes_ready, digest_of_events, digest_of_queue, digest_of_held, digest_of_lines, digest_of_printed};

use crate::process::Process;
use crate::queue::{Future, Queue};
use crate::state::State;
use sched_core::bag::{Bag, PrintedLine};
use std::collections::VecDeque;
use std::hash::{Hash, Hasher};
use vbits::Vec4;
use vmodel::frame::Frame;
use vmodel::part::{Kept, Part, Parts};
use vmodel::process_set::ProcessSet;

// 2^64 over the golden ratio, an odd number whose digits look like chance.
const FACTOR: u64 = 11_400_714_819_323_198_485;

// 2^64.
const WORD: u128 = 18_446_744_073_709_551_616;

// One word more.
fn mix(digest: u64, word: u64) -> u64
    ensures { result ≡ digest_with digest word }
{
    digest.wrapping_add(word).wrapping_mul(FACTOR)
}

// A vector, by its two planes.
fn mix_vector(digest: u64, value: Vec4) -> u64
    ensures { result ≡ digest_of_vector digest value }
{
    let (known, unknown) = value.planes();
    mix(mix(digest, known), unknown)
}

fn mix_values(first: u64, values: &[Vec4]) -> u64
    ensures { result ≡ digest_of_values first values.now }
{
    let mut digest = first;
    for value in values {
        digest = mix_vector(digest, *value);
    }
    digest
}

// Where a process stands, and how many turns are left there; none, where it is to write what it holds.
fn stand_of(process: &Process) -> u64
    ensures { result ≡ stand_of_frame (slice_get process.now.continuation 0) }
{
    match process.first() {
        None => 0,
        Some(Frame::Executing(place)) => (place as u64).wrapping_add(1),
        Some(Frame::Repeating(place, turns)) => mix((place as u64).wrapping_add(1), turns),
        Some(Frame::Writing(place)) => mix((place as u64).wrapping_add(1), 0),
    }
}

fn mix_processes(first: u64, processes: &[Process]) -> u64
    ensures { result ≡ digest_of_processes first processes.now }
{
    let mut digest = first;
    for process in processes {
        digest = mix(digest, stand_of(process));
    }
    digest
}

// The end of a list.
fn mix_end(digest: u64) -> u64
    ensures { result ≡ digest_of_end digest }
{
    mix(digest, 256)
}

// 128 bits, as two words.
fn mix_half(digest: u64, half: u128) -> u64
    ensures { result ≡ digest_of_half digest half }
{
    mix(mix(digest, (half % WORD) as u64), (half / WORD) as u64)
}

fn mix_set(digest: u64, set: &ProcessSet) -> u64
    ensures { result ≡ digest_of_set digest set.now }
{
    let (low, high) = set.halves();
    mix_half(mix_half(digest, low), high)
}

fn mix_places(first: u64, places: &[usize]) -> u64
    ensures { result ≡ digest_of_list first places.now }
{
    let mut digest = first;
    for place in places {
        digest = mix(digest, *place as u64);
    }
    mix_end(digest)
}

fn mix_part(digest: u64, part: Part) -> u64
    ensures { result ≡ digest_of_part digest part }
{
    match part {
        Part::Whole { variable, value } => mix_vector(mix(digest, variable as u64), value),
        Part::Bits {
            variable,
            low,
            value,
        } => mix_vector(mix(mix(digest, variable as u64), low as u64), value),
    }
}

fn mix_list(first: u64, parts: &[Part]) -> u64
    ensures { result ≡ digest_of_parts first parts.now }
{
    let mut digest = first;
    for part in parts {
        digest = mix_part(digest, *part);
    }
    digest
}

fn mix_parts(digest: u64, parts: &Parts) -> u64
    ensures { result ≡ digest_of_parts digest parts.now }
{
    match parts.kept() {
        Kept::One(part) => mix_part(digest, part),
        Kept::Many(list) => mix_list(digest, list),
    }
}

fn mix_slice(first: u64, updates: &[Parts]) -> u64
    ensures { result ≡ digest_of_updates first updates.now }
{
    let mut digest = first;
    for parts in updates {
        digest = mix_parts(digest, parts);
    }
    digest
}

#[tactic(auto, using(crate::proofs::DigestLemmas::updates_joined))]
fn mix_updates(digest: u64, updates: &VecDeque<Parts>) -> u64
    ensures { result ≡ digest_of_update_list digest updates.now.items }
{
    let (front, back) = updates.as_slices();
    mix_end(mix_slice(mix_slice(digest, front), back))
}

fn mix_time(digest: u64, entry: &Future) -> u64
    ensures { result ≡ digest_of_time digest entry.now }
{
    let with_processes = mix_set(mix(digest, entry.time), &entry.processes);
    mix_updates(with_processes, &entry.updates)
}

fn mix_future(first: u64, future: &[Future]) -> u64
    ensures { result ≡ digest_of_future first future.now }
{
    let mut digest = first;
    for entry in future {
        digest = mix_time(digest, entry);
    }
    digest
}

fn mix_last(digest: u64, last: Option<u32>) -> u64
    ensures { result ≡ digest_of_last digest last }
{
    match last {
        None => mix_end(digest),
        Some(process) => mix(digest, process as u64),
    }
}

fn mix_processes_ready(digest: u64, queue: &Queue) -> u64
    ensures { result ≡ digest_of_processes_ready digest queue.now }
{
    let active = mix_set(mix_last(digest, queue.last), &queue.active);
    mix_set(active, &queue.inactive)
}

fn mix_events(digest: u64, queue: &Queue) -> u64
    ensures { result ≡ digest_of_events digest queue.now }
{
    let updates = mix_updates(mix_updates(digest, &queue.activated), &queue.posted);
    mix_places(updates, &queue.strobes)
}

fn mix_queue(digest: u64, queue: &Queue) -> u64
    ensures { result ≡ digest_of_queue digest queue.now }
{
    mix_future(
        mix_events(mix_processes_ready(digest, queue), queue),
        &queue.future,
    )
}

fn mix_held(digest: u64, held_back: &Option<ProcessSet>) -> u64
    ensures { result ≡ digest_of_held digest held_back.now }
{
    match held_back {
        None => digest,
        Some(held) => mix_set(digest, held),
    }
}

fn mix_bytes(first: u64, bytes: &[u8]) -> u64
    ensures { result ≡ digest_of_list first bytes.now }
{
    let mut digest = first;
    for byte in bytes {
        digest = mix(digest, *byte as u64);
    }
    mix_end(digest)
}

fn mix_lines(first: u64, lines: &[PrintedLine]) -> u64
    ensures { result ≡ digest_of_lines first lines.now }
{
    let mut digest = first;
    for line in lines {
        digest = mix_bytes(digest, line.as_bytes());
    }
    digest
}

fn mix_printed(digest: u64, printed: &Option<Bag>) -> u64
    ensures { result ≡ digest_of_printed digest printed.now }
{
    match printed {
        None => digest,
        Some(bag) => mix_end(mix_lines(digest, bag.as_slice())),
    }
}

/// A hash is fed one number made of the time, the values, where the processes stand, what the queue holds, and what is held back and
/// printed where that is kept.
impl Hash for State {
    ghost use Rattle.std.specs.Hash as fed;
    ghost use Rattle.vmodel.specs.Digest.{digest, fed_alike};

    ghost hash_input = { λ s. fed.u64 (digest s) };

    ghost respects_eq = { fed_alike };

    fn hash<H: Hasher>(&self, state: &mut H) {
        let valued = mix_values(mix(0, self.time()), self.values());
        let placed = mix_processes(valued, &self.processes);
        let held = mix_held(mix_queue(placed, &self.queue), &self.held_back);
        state.write_u64(mix_printed(held, &self.printed));
    }
}
