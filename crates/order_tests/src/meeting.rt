//! A pace that lets two clients put only together.

use order_queue::Pace;
use std::sync::Wait;
use std::sync::atomic::{AtomicBool, AtomicU32, Ordering};
use std::thread;

// How many transactions each client has.
const PUTS: u32 = 3;

// How many times clients meet: once for each transaction, and once for their ends.
const MEETINGS: u32 = PUTS + 1;

// How often a client that waits for the other lets others run, before it gives up: some half a minute where nobody else wants its processor.
const MOST_YIELDS: u32 = 100_000_000;

/// Holds each of two clients with three transactions each at each of its puts, that of its end too, until the other has come to its put of
/// the same index. It fails where a client does not come once to each index, in order.
#[derive(Drop)]
pub struct Meeting {
    first: AtomicU32,
    second: AtomicU32,
    met: AtomicU32,
    failed: AtomicBool,
}

impl Meeting {
    /// A pace at which nobody has come.
    pub fn new() -> Meeting {
        Meeting {
            first: AtomicU32::new(0),
            second: AtomicU32::new(0),
            met: AtomicU32::new(0),
            failed: AtomicBool::new(false),
        }
    }

    /// Whether each of the two has come once to each of its puts, and has met the other there.
    pub fn has_met(&self) -> bool {
        !self.failed.load(Ordering::SeqCst) && self.met.load(Ordering::SeqCst) == 2 * MEETINGS
    }

    // Waits until the other has come so far.
    fn wait_for(&self, other: &AtomicU32, here: u32) {
        for _ in 0..MOST_YIELDS {
            if other.load(Ordering::SeqCst) >= here {
                self.met.fetch_add(1, Ordering::SeqCst);
                return;
            }
            thread::yield_now();
        }
        self.failed.store(true, Ordering::SeqCst);
    }
}

impl Pace for Meeting {
    fn pause<R: Wait>(&self, _rt: &R, client: u32, index: u32) {
        let (own, other) = if client == 1 {
            (&self.first, &self.second)
        } else {
            (&self.second, &self.first)
        };
        let here = index.saturating_add(1);
        if own.swap(here, Ordering::SeqCst) != index {
            self.failed.store(true, Ordering::SeqCst);
        }
        self.wait_for(other, here);
    }
}
