// Gates that hold a worker before a job, to show that others work meanwhile.

use std::sync::atomic::{AtomicU64, Ordering};
use workpool::Gate;

/// How often a held worker looks whether another has come.
const TURNS: u32 = 1_000_000_000;

/// A gate that lets its first call pass and holds the second until a call by another worker comes,
/// or its turns have run out.
#[derive(Drop)]
pub struct HoldsSecond {
    calls: AtomicU64,
    others: AtomicU64,
    holder: AtomicU64,
    ran_out: AtomicU64,
}

impl HoldsSecond {
    /// A gate that nobody has come to.
    pub fn new() -> HoldsSecond {
        HoldsSecond {
            calls: AtomicU64::new(0),
            others: AtomicU64::new(0),
            holder: AtomicU64::new(0),
            ran_out: AtomicU64::new(0),
        }
    }

    /// How often a worker came.
    pub fn calls(&self) -> u64 {
        self.calls.load(Ordering::SeqCst)
    }

    /// Whether another worker came while the second call was held.
    pub fn was_freed(&self) -> bool {
        self.others.load(Ordering::SeqCst) > 0 && self.ran_out.load(Ordering::SeqCst) == 0
    }

    // Holds the worker.
    fn hold(&self) {
        for _ in 0..TURNS {
            if self.others.load(Ordering::SeqCst) > 0 {
                return;
            }
        }
        self.ran_out.store(1, Ordering::SeqCst);
    }
}

impl Gate for HoldsSecond {
    fn at(&self, worker: u32, _job: u64) {
        let number = worker as u64 + 1;
        match self.calls.fetch_add(1, Ordering::SeqCst) {
            0 => {}
            1 => {
                self.holder.store(number, Ordering::SeqCst);
                self.hold();
            }
            _ => {
                if self.holder.load(Ordering::SeqCst) != number {
                    self.others.store(1, Ordering::SeqCst);
                }
            }
        }
    }
}
