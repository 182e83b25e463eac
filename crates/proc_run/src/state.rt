//! What a run has on its way.

use crate::asked::HeldAsked;
use proc_code::slots::Environment;
use proc_syntax::Stop;
use rel_base::{List, Made, Read};
use row_sets::Overlay;

/// What a run has on its way: what its expressions are evaluated in, what it wrote, the reads that it made, and the count of its steps.
#[derive(Drop)]
pub struct Run {
    pub environment: Environment,
    pub own: Overlay,
    pub made: Vec<Made>,
    pub steps: u32,
}

/// How a run stands.
#[derive(Drop)]
pub enum Phase {
    /// It goes on with its spots.
    Running,
    /// It waits for the rows of a read of the statement of a number, in the block to which its spots lead.
    Ask { at: usize, asked: HeldAsked },
    /// It has the rows of its read.
    Answered { at: usize, asked: HeldAsked },
    /// It ended with its writes.
    Good,
    /// It stopped before its end.
    Stopped(Stop),
}

/// What a machine needs: the rows of a read, or nothing more, since its run has ended.
#[derive(Drop)]
pub enum Want {
    Rows(Read),
    Ended,
}
