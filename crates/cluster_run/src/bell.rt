//! What idle actors sleep on.

ghost use Rattle.std.specs.Prelude.{◌<◌, ◌^◌};

use std::sync::Wait;
use std::sync::atomic::{AtomicU64, Ordering};
use std::thread;

// How often one that waits looks before it sleeps. What it waits for is mostly over in less time than a thread takes to wake.
const LOOKS_BEFORE_SLEEP: u32 = 100;

/// A count of what has happened at a node. An actor that has nothing to do sleeps until it changes.
#[derive(Drop)]
pub struct Bell {
    count: AtomicU64,
    sleepers: AtomicU64,
}

impl Bell {
    /// A bell that was not rung.
    pub fn new() -> Bell {
        Bell {
            count: AtomicU64::new(0),
            sleepers: AtomicU64::new(0),
        }
    }

    /// Something has happened: whoever sleeps wakes. The system is called only where somebody may sleep: who is about to is counted before
    /// the count is compared for the last time, so that it is seen here, or sees there that the bell was rung.
    pub fn ring(&self) {
        self.count.fetch_add(1, Ordering::SeqCst);
        if self.sleepers.load(Ordering::SeqCst) != 0 {
            self.count.wake_all();
        }
    }

    /// How often it was rung, but for multiples of 2 to the 32.
    pub fn heard(&self) -> u32 {
        (self.count.load(Ordering::SeqCst) % 4_294_967_296) as u32
    }

    /// Waits while it was rung no more than was heard, asleep after some looks. An actor asks what is heard before it looks for something to
    /// do, so that it does not sleep over what happens meanwhile.
    pub fn wait<R: Wait>(&self, rt: &R, heard: u32) {
        for _ in 0..LOOKS_BEFORE_SLEEP {
            if self.heard() != heard {
                return;
            }
            thread::yield_now();
        }
        self.sleepers.fetch_add(1, Ordering::SeqCst);
        self.count.park(rt, heard);
        self.sleepers.fetch_sub(1, Ordering::SeqCst);
    }
}
