//! A gate that makes two payments read side by side.

use crate::waiting::Count;
use cluster_run::{Gate, Point};
use rel_base::Id;
use std::sync::Wait;
use std::sync::atomic::{AtomicBool, Ordering};

/// How many reads a payment makes.
pub const READS: u64 = 4;

// A payment that has come to its end.
const ENDED: u64 = READS + 1;

/// Holds the payments `p1` and `p2` after each of their reads until the other has made as many, and the processor before block 2 until both
/// have come to their ends.
#[derive(Drop)]
pub struct SideBySide {
    // The points in order that each payment has met: its reads, and its end.
    first: Count,
    second: Count,
    // Whether the processor has met block 2.
    delivering: AtomicBool,
}

impl SideBySide {
    /// The gate to which nobody has come.
    pub fn new() -> SideBySide {
        SideBySide {
            first: Count::new(),
            second: Count::new(),
            delivering: AtomicBool::new(false),
        }
    }

    /// Whether each point was met, and nobody was held in vain.
    pub fn is_passed(&self) -> bool {
        self.first.is_met(ENDED)
            && self.second.is_met(ENDED)
            && self.delivering.load(Ordering::SeqCst)
    }

    // A transaction comes to a point of this number. One that has left out a point meets none any more.
    fn meet(&self, id: Option<&Id>, number: u64) {
        let (own, other) = match id {
            Some(id) if id.as_str() == "p1" => (&self.first, &self.second),
            Some(id) if id.as_str() == "p2" => (&self.second, &self.first),
            _ => return,
        };
        if own.value() == number.saturating_sub(1) {
            own.set(number);
        }
        if number <= READS {
            other.wait(number);
        }
    }
}

impl Gate for SideBySide {
    fn pause<R: Wait>(&self, _rt: &R, _node: u32, actor: u32, id: Option<&Id>, point: Point) {
        match point {
            Point::Made(number) if number as u64 <= READS => self.meet(id, number as u64),
            Point::Ending => self.meet(id, ENDED),
            Point::Delivering(number) if number == 2 && actor == 0 => {
                self.delivering.store(true, Ordering::SeqCst);
                self.first.wait(ENDED);
                self.second.wait(ENDED);
            }
            _ => {}
        }
    }
}
