//! A node that a schedule drives.

ghost use Rattle.std.specs.Prelude.{◌≡◌, IfOk, OnOk, Some, slice_get};
ghost use Rattle.std.specs.List.{AllByRecursion};
ghost use Rattle.std.specs.Option.{option_copied};
ghost use Rattle.node_model.specs.Journals.{IsLegal};
ghost use Rattle.node_model.specs.Steps.{ToCommit, ToSeal};
ghost use Rattle.schedule_sim.specs.Bare.{Takes, Tells, given_in, state_of};
ghost use Rattle.schedule_sim.specs.InHands.{AreInHands};
ghost use Rattle.schedule_sim.specs.Running.{after_lines, arrival, asked_by, if_all, made_by, to_arrive, to_deliver};
ghost use Rattle.schedule_sim.specs.Steps.{IsStep};

use crate::hands::{Hands, empty_hands};
use crate::step::Step;
use node_core::NodeCore;
use node_model::NodeResult;
use proc_check::Checked;
use proc_syntax::{Block, Tx};
use rel_base::NoMemory;
use row_sets::Versions;
use std::alloc::Global;
use std::sync::Arc;

/// The actor that has to do with blocks.
const PROCESSOR: u32 = 0;

/// The actor that brings what arrives.
const BRINGER: u32 = 17;

/// Why a schedule tells no result.
#[derive(Clone, Copy, PartialEq, Eq)]
pub enum SimFault {
    /// Memory ran out.
    NoMemory,
    /// The schedule ends before all blocks are sealed. So many are.
    Short { sealed: u64 },
}

impl From<NoMemory> for SimFault {
    ghost use Rattle.std.specs.Prelude.{◌≡◌};
    ghost use Rattle.schedule_sim.specs.declared.simulation.SimFault.TheVariants as fault;

    ghost from_gives = { λ _ e. e ≡ fault.NoMemory };

    fn from(_error: NoMemory) -> SimFault {
        SimFault::NoMemory
    }
}

/// The arrival of a number, from 1.
fn arrival(arrivals: &[Tx], number: u64) -> Option<&Tx>
    ensures { option_copied result ≡ arrival arrivals.now number }
{
    match number.checked_sub(1) {
        None => None,
        Some(place) => arrivals.get(place as usize),
    }
}

/// The block after so many.
fn block_behind(blocks: &[Block], sealed: u64) -> Option<&Block>
    ensures { option_copied result ≡ slice_get blocks.now sealed }
{
    blocks.get(sealed as usize)
}

/// A node, and what its actors hold between two lines.
#[derive(Drop)]
pub struct SimulatedNode<V: Versions> {
    pub(crate) node: NodeCore<V>,
    pub(crate) hands: Hands,
}

impl<V: Versions> SimulatedNode<V> {
    ghost use Rattle.node_model.specs.World.{empty};

    /// A node to which nothing has happened, whose actors hold nothing.
    pub fn new(alloc: Global, app: &Arc<Checked>) -> Result<SimulatedNode<V>, NoMemory>
        ensures app { IfOk result (λ made. made.node.app ≡ app.now.value.app) }
        ensures state { IfOk result (λ made. state_of made.node ≡ empty) }
        ensures hands { IfOk result (λ made. AreInHands made.node made.hands) }
    {
        let node = NodeCore::new(alloc, app)?;
        let hands = empty_hands(alloc)?;
        Ok(SimulatedNode { node, hands })
    }

    // What arrives is brought.
    fn arrive(&mut self, arrivals: &[Tx], number: u64) -> Result<(), NoMemory>
        requires hands { AreInHands self.old.node self.old.hands }
        ensures takes { OnOk result (Takes self.old.node 17 (to_arrive arrivals.now number) self.new.node) }
        ensures hands { OnOk result (AreInHands self.new.node self.new.hands) }
    {
        match arrival(arrivals, number) {
            None => Ok(()),
            Some(tx) => {
                self.node.arrive(BRINGER, tx)?;
                Ok(())
            }
        }
    }

    // The block after the sealed ones is delivered.
    fn deliver(&mut self, blocks: &[Block]) -> Result<(), NoMemory>
        requires hands { AreInHands self.old.node self.old.hands }
        ensures takes { OnOk result (Takes self.old.node 0 (to_deliver blocks.now (state_of self.old.node)) self.new.node) }
        ensures hands { OnOk result (AreInHands self.new.node self.new.hands) }
    {
        match block_behind(blocks, self.node.height()) {
            None => Ok(()),
            Some(block) => {
                self.node.deliver(PROCESSOR, block)?;
                Ok(())
            }
        }
    }

    // The first undecided transaction of the block in work is decided.
    fn commit(&mut self) -> Result<(), NoMemory>
        requires hands { AreInHands self.old.node self.old.hands }
        ensures takes { OnOk result (Takes self.old.node 0 (Some ToCommit) self.new.node) }
        ensures hands { OnOk result (AreInHands self.new.node self.new.hands) }
    {
        self.node.commit(PROCESSOR)?;
        Ok(())
    }

    // The block in work is sealed.
    fn seal(&mut self) -> Result<(), NoMemory>
        requires hands { AreInHands self.old.node self.old.hands }
        ensures takes { OnOk result (Takes self.old.node 0 (Some ToSeal) self.new.node) }
        ensures hands { OnOk result (AreInHands self.new.node self.new.hands) }
    {
        self.node.seal(PROCESSOR)?;
        Ok(())
    }

    // A line is taken.
    fn take_line(&mut self, blocks: &[Block], arrivals: &[Tx], line: Step) -> Result<(), NoMemory>
        requires line { IsStep line }
        requires hands { AreInHands self.old.node self.old.hands }
        ensures takes { OnOk result (Takes self.old.node (made_by line) (asked_by (given_in self.old.node blocks.now arrivals.now) (state_of self.old.node) line) self.new.node) }
        ensures hands { OnOk result (AreInHands self.new.node self.new.hands) }
    {
        match line {
            Step::Arrive(number) => self.arrive(arrivals, number),
            Step::Claim { actor, pick } => self.claim(actor, pick),
            Step::Read(actor) => self.read(actor),
            Step::Finish(actor) => self.finish(actor),
            Step::Release(actor) => {
                self.release(actor);
                Ok(())
            }
            Step::Deliver => self.deliver(blocks),
            Step::Commit => self.commit(),
            Step::Seal => self.seal(),
        }
    }

    /// Takes lines, one after another.
    pub fn take_lines(
        &mut self,
        blocks: &[Block],
        arrivals: &[Tx],
        lines: &[Step],
    ) -> Result<(), NoMemory>
        requires lines { AllByRecursion IsStep lines.now }
        requires hands { AreInHands self.old.node self.old.hands }
        ensures app { OnOk result (self.new.node.app ≡ self.old.node.app) }
        ensures state { OnOk result (state_of self.new.node ≡ after_lines (given_in self.old.node blocks.now arrivals.now) (state_of self.old.node) lines.now) }
    {
        for line in lines {
            self.take_line(blocks, arrivals, *line)?;
        }
        Ok(())
    }

    /// What the node tells, where all blocks are sealed.
    pub fn close(self, blocks: &[Block]) -> Result<NodeResult, SimFault>
        ensures told { Tells result (if_all self.node.app blocks.now (state_of self.node)) }
        ensures legal { IfOk result (λ made. IsLegal self.node.app made.journal) }
    {
        let SimulatedNode { node, hands } = self;
        drop(hands);
        let sealed = node.height();
        if sealed != blocks.len() as u64 {
            return Err(SimFault::Short { sealed });
        }
        let made = node.close()?;
        Ok(made)
    }
}
