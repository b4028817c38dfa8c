// What a hash is fed of a queue: words mixed to one number.

ghost use Rattle.std.specs.Prelude.{◌≡◌};
ghost use Rattle.vmodel.specs.Digest.{digest_with, digest_of_end, digest_of_vector, digest_of_half, digest_of_set, digest_of_list, digest_of_part, digest_of_parts, digest_of_update_list, digest_of_time, digest_of_future, digest_of_last};

use crate::future_time::FutureTime;
use std::collections::VecDeque;
use vbits::Vec4;
use vmodel::part::{Kept, Part, Parts};
use vmodel::process_set::ProcessSet;

// 2^64 over the golden ratio, an odd number whose digits look like chance.
const FACTOR: u64 = 11_400_714_819_323_198_485;

// 2^64.
const WORD: u128 = 18_446_744_073_709_551_616;

/// One word more.
pub fn mix(digest: u64, word: u64) -> u64
    ensures { result ≡ digest_with digest word }
{
    digest.wrapping_add(word).wrapping_mul(FACTOR)
}

/// A vector, by its two planes.
pub fn mix_vector(digest: u64, value: Vec4) -> u64
    ensures { result ≡ digest_of_vector digest value }
{
    let (known, unknown) = value.planes();
    mix(mix(digest, known), unknown)
}

/// One word more, which ends a list.
pub fn mix_end(digest: u64) -> u64
    ensures { result ≡ digest_of_end digest }
{
    mix(digest, 256)
}

// 128 bits, as two words.
fn mix_half(digest: u64, half: u128) -> u64
    ensures { result ≡ digest_of_half digest half }
{
    mix(mix(digest, (half % WORD) as u64), (half / WORD) as u64)
}

/// A set of processes, as four words.
pub fn mix_set(digest: u64, set: &ProcessSet) -> u64
    ensures { result ≡ digest_of_set digest set.now }
{
    let (low, high) = set.halves();
    mix_half(mix_half(digest, low), high)
}

pub(crate) fn mix_places(first: u64, places: &[usize]) -> u64
    ensures { result ≡ digest_of_list first places.now }
{
    let mut digest = first;
    for place in places {
        digest = mix(digest, *place as u64);
    }
    mix_end(digest)
}

fn mix_part(digest: u64, part: Part) -> u64
    ensures { result ≡ digest_of_part digest part }
{
    match part {
        Part::Whole { variable, value } => mix_vector(mix(digest, variable as u64), value),
        Part::Bits {
            variable,
            low,
            value,
        } => mix_vector(mix(mix(digest, variable as u64), low as u64), value),
    }
}

fn mix_list(first: u64, parts: &[Part]) -> u64
    ensures { result ≡ digest_of_parts first parts.now }
{
    let mut digest = first;
    for part in parts {
        digest = mix_part(digest, *part);
    }
    digest
}

fn mix_parts(digest: u64, parts: &Parts) -> u64
    ensures { result ≡ digest_of_parts digest parts.now }
{
    match parts.kept() {
        Kept::One(part) => mix_part(digest, part),
        Kept::Many(list) => mix_list(digest, list),
    }
}

pub(crate) fn mix_updates(first: u64, updates: &VecDeque<Parts>) -> u64
    ensures { result ≡ digest_of_update_list first updates.now.items }
{
    let mut digest = first;
    for parts in updates.iter() {
        digest = mix_parts(digest, parts);
    }
    mix_end(digest)
}

fn mix_time(digest: u64, entry: &FutureTime) -> u64
    ensures { result ≡ digest_of_time digest entry.now }
{
    let with_processes = mix_set(mix(digest, entry.time), &entry.processes);
    mix_updates(with_processes, &entry.updates)
}

pub(crate) fn mix_future(first: u64, entries: &VecDeque<FutureTime>) -> u64
    ensures { result ≡ digest_of_future first entries.now.items }
{
    let mut digest = first;
    for entry in entries.iter() {
        digest = mix_time(digest, entry);
    }
    digest
}

pub(crate) fn mix_last(digest: u64, last: Option<u32>) -> u64
    ensures { result ≡ digest_of_last digest last }
{
    match last {
        None => mix_end(digest),
        Some(process) => mix(digest, process as u64),
    }
}
