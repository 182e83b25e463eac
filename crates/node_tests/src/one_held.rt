//! A gate that holds one node while others go on.

use crate::waiting::Count;
use cluster_run::{Gate, Point};
use rel_base::Id;
use std::sync::Wait;

/// Holds the other nodes before block 1 until node 1 has come there too, and node 1 until all others have come to their last block.
#[derive(Drop)]
pub struct OneHeld {
    others: u64,
    last: u64,
    // How often node 1 has come to block 1.
    held: Count,
    // How many others have come to their last block.
    ahead: Count,
}

impl OneHeld {
    /// The gate to which nobody has come.
    pub fn new(others: u64, last: u64) -> OneHeld {
        OneHeld {
            others,
            last,
            held: Count::new(),
            ahead: Count::new(),
        }
    }

    /// Whether all came to these blocks, and nobody was held in vain.
    pub fn is_passed(&self) -> bool {
        self.held.is_met(1) && self.ahead.is_met(self.others)
    }

    // Node 1 comes to a block.
    fn come_to(&self, number: u64) {
        if number == 1 {
            self.held.add();
            self.ahead.wait(self.others);
        }
    }

    // Another node comes to a block.
    fn go_on_to(&self, number: u64) {
        if number == 1 {
            self.held.wait(1);
        }
        if number == self.last {
            self.ahead.add();
        }
    }
}

impl Gate for OneHeld {
    fn pause<R: Wait>(&self, _rt: &R, node: u32, _actor: u32, _id: Option<&Id>, point: Point) {
        match point {
            Point::Delivering(number) if node == 1 => self.come_to(number),
            Point::Delivering(number) => self.go_on_to(number),
            _ => {}
        }
    }
}
