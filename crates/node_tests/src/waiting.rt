//! Counts that those whom a gate holds wait for.

use std::sync::atomic::{AtomicBool, AtomicU64, Ordering};
use std::thread;

// How often one that waits lets others run before it gives up: some half a minute where nobody else wants its processor.
const PATIENCE: u32 = 100_000_000;

/// A count of what has come, for which others wait.
#[derive(Drop)]
pub struct Count {
    value: AtomicU64,
    gave_up: AtomicBool,
}

impl Count {
    /// Nothing has come.
    pub fn new() -> Count {
        Count {
            value: AtomicU64::new(0),
            gave_up: AtomicBool::new(false),
        }
    }

    /// How many have come.
    pub fn value(&self) -> u64 {
        self.value.load(Ordering::SeqCst)
    }

    /// So many have come.
    pub fn set(&self, value: u64) {
        self.value.store(value, Ordering::SeqCst);
    }

    /// One more has come.
    pub fn add(&self) {
        self.value.fetch_add(1, Ordering::SeqCst);
    }

    /// Waits until so many have come. Who does so in vain gives up, and nobody waits after that.
    pub fn wait(&self, wanted: u64) {
        for _ in 0..PATIENCE {
            if self.value() >= wanted || self.gave_up.load(Ordering::SeqCst) {
                return;
            }
            thread::yield_now();
        }
        self.gave_up.store(true, Ordering::SeqCst);
    }

    /// Whether so many have come, and nobody waited in vain.
    pub fn is_met(&self, wanted: u64) -> bool {
        self.value() >= wanted && !self.gave_up.load(Ordering::SeqCst)
    }
}
