// What the hash of a kernel is fed (specs/KernelFed.antt).

ghost use Rattle.std.specs.Prelude.{◌≡◌};
ghost use Rattle.vmodel.specs.Digest.{digest_of_held, digest_of_list, digest_of_lines, digest_of_printed};
ghost use Rattle.vkernel.specs.KernelFed.{views_digest};

use crate::kernel::Kernel;
use sched_core::bag::{Bag, PrintedLine};
use std::hash::{Hash, Hasher};
use vmodel::process_set::ProcessSet;
use vstrata::digest::{mix, mix_end, mix_set};

fn mix_held(digest: u64, held_back: &Option<ProcessSet>) -> u64
    ensures { result ≡ digest_of_held digest held_back.now }
{
    match held_back {
        None => digest,
        Some(held) => mix_set(digest, held),
    }
}

fn mix_bytes(first: u64, bytes: &[u8]) -> u64
    ensures { result ≡ digest_of_list first bytes.now }
{
    let mut digest = first;
    for byte in bytes {
        digest = mix(digest, *byte as u64);
    }
    mix_end(digest)
}

fn mix_lines(first: u64, lines: &[PrintedLine]) -> u64
    ensures { result ≡ digest_of_lines first lines.now }
{
    let mut digest = first;
    for line in lines {
        digest = mix_bytes(digest, line.as_bytes());
    }
    digest
}

fn mix_printed(digest: u64, printed: &Option<Bag>) -> u64
    ensures { result ≡ digest_of_printed digest printed.now }
{
    match printed {
        None => digest,
        Some(bag) => mix_end(mix_lines(digest, bag.as_slice())),
    }
}

impl Kernel {
    // One number made of all but the queue.
    fn views_digest(&self) -> u64
        ensures { result ≡ views_digest self.now }
    {
        let held = mix_held(self.values.sum(), &self.held_back);
        mix_printed(held, &self.printed)
    }
}

/// A hash is fed what the queue is, as vstrata has it, and one number made of the sum of the shares of the values, and of what is held
/// back and printed where that is kept.
impl Hash for Kernel {
    ghost use Rattle.vkernel.specs.KernelFed.{kernel_fed, kernels_fed_alike};

    ghost hash_input = { kernel_fed };

    ghost respects_eq = { kernels_fed_alike };

    fn hash<H: Hasher>(&self, state: &mut H) {
        self.queue.hash(state);
        state.write_u64(self.views_digest());
    }
}
