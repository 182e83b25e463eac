//! What the actors of a node share beside it.

ghost use Rattle.std.specs.Prelude.{◌+◌, ◌==◌, ◌≡◌, ◌≤◌};
ghost use Rattle.proc_syntax.specs.Limits.{most_executors};

use crate::bell::Bell;
use crate::gate::{Gate, Point};
use crate::shared_block::SharedBlock;
use node_core::HeldJob;
use proc_syntax::Tx;
use std::sync::Wait;

// So many steps take longer than the turns of a call.
const LONG_RUN: u32 = 150;

// So many steps for each row that was read, since a row moves between the processors of the threads that read it, while steps are made side by
// side. Of a loop in a loop the inner one reads the same rows again, so the rows of one read are counted.
const STEPS_A_ROW: usize = 2;

/// The actors of a node: the processor, which is actor 0, executors from 1 on, and after them one that makes the arrivals. Each comes to
/// the same gate. Executors that are idle hear one bell, and the processor, while an executor holds the job that is due, another.
#[derive(Drop)]
pub struct Crew<'a, G: Gate> {
    /// The number of the node, from 1.
    pub number: u32,
    pub executors: u32,
    /// What the processor processes, in order.
    pub blocks: &'a [SharedBlock],
    /// What arrives at the node, in order.
    pub arrivals: &'a [Tx],
    /// Rung where there may be a job to claim.
    pub bell: Bell,
    /// Rung where an executor holds its job no more.
    pub ended: Bell,
    /// Rung where a long run ends. Nobody sleeps on it.
    pub long_runs: Bell,
    gate: &'a G,
}

impl<'a, G: Gate> Crew<'a, G> {
    /// The actors of the node of this number.
    pub fn new(
        number: u32,
        executors: u32,
        blocks: &'a [SharedBlock],
        arrivals: &'a [Tx],
        gate: &'a G,
    ) -> Crew<'a, G>
        ensures number { result.number ≡ number }
        ensures executors { result.executors ≡ executors }
        ensures blocks { result.blocks.now ≡ blocks.now }
        ensures arrivals { result.arrivals.now ≡ arrivals.now }
        ensures gate { result.gate.now ≡ gate.now }
    {
        Crew {
            number,
            executors,
            blocks,
            arrivals,
            bell: Bell::new(),
            ended: Bell::new(),
            long_runs: Bell::new(),
            gate,
        }
    }

    /// How many run beside the processor: nobody feeds a node at which nothing arrives.
    pub fn beside(&self) -> u32
        requires few { self.now.executors ≤ most_executors }
        ensures { result ≤ most_executors + 1 }
    {
        if self.arrivals.is_empty() {
            self.executors
        } else {
            self.executors + 1
        }
    }

    /// Whether an actor is the one that makes the arrivals.
    pub fn feeds(&self, actor: u32) -> bool
        requires few { self.now.executors ≤ most_executors }
        ensures { result ≡ (actor == self.now.executors + 1) }
    {
        actor == self.executors + 1
    }

    /// The run of a job has come to its end, be it long or not.
    pub fn note_run(&self, work: &HeldJob) {
        let steps = work.steps();
        if steps >= LONG_RUN && steps as usize / STEPS_A_ROW >= work.most_rows() {
            self.long_runs.ring();
        }
    }

    /// An actor comes to a point of a job.
    pub fn come_to<R: Wait>(&self, rt: &R, actor: u32, work: &HeldJob, point: Point) {
        self.gate
            .pause(rt, self.number, actor, Some(work.id()), point);
    }

    /// The processor is about to deliver the block of this number.
    pub fn come_to_block<R: Wait>(&self, rt: &R, number: u64) {
        self.gate
            .pause(rt, self.number, 0, None, Point::Delivering(number));
    }
}
