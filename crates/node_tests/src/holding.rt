//! A gate that holds the jobs of payments while blocks go on.

use crate::waiting::Count;
use cluster_run::{Gate, Point};
use rel_base::Id;
use std::sync::Wait;

/// Holds the processor before the first of two blocks until so many payments are claimed by executors, and each of these until the processor has
/// come to the last of the two.
#[derive(Drop)]
pub struct Holding {
    claims: u64,
    first: u64,
    last: u64,
    // How many payments are claimed.
    claimed: Count,
    // The block that the processor has come to.
    reached: Count,
}

impl Holding {
    /// The gate to which nobody has come.
    pub fn new(claims: u64, first: u64, last: u64) -> Holding {
        Holding {
            claims,
            first,
            last,
            claimed: Count::new(),
            reached: Count::new(),
        }
    }

    /// Whether so many were claimed, the processor came to the last block, and nobody was held in vain.
    pub fn is_passed(&self) -> bool {
        self.claimed.is_met(self.claims) && self.reached.is_met(self.last)
    }

    // An executor has claimed a job.
    fn claim(&self, id: Option<&Id>) {
        if let Some(id) = id
            && id.as_str().starts_with("p")
        {
            self.claimed.add();
            self.reached.wait(self.last);
        }
    }

    // The processor comes to a block.
    fn come_to(&self, number: u64) {
        if number == self.first {
            self.claimed.wait(self.claims);
        }
        self.reached.set(number);
    }
}

impl Gate for Holding {
    fn pause<R: Wait>(&self, _rt: &R, _node: u32, actor: u32, id: Option<&Id>, point: Point) {
        match point {
            Point::Claimed if actor > 0 => self.claim(id),
            Point::Delivering(number) if actor == 0 => self.come_to(number),
            _ => {}
        }
    }
}
