//! The jobs that the actors of a schedule claim and run.

ghost use Rattle.std.specs.Prelude.{OnOk};
ghost use Rattle.node_core.specs.Hands.{GoesOn};
ghost use Rattle.node_core.specs.InHand.{IsReady, WantsRead};
ghost use Rattle.node_core.specs.declared.answers.Next.TheVariants as next;
ghost use Rattle.schedule_sim.specs.Bare.{Takes, state_of};
ghost use Rattle.schedule_sim.specs.InHands.{AreInHands, AreInHandsBut, IsWorkOf};
ghost use Rattle.schedule_sim.specs.Running.{to_claim, to_finish, to_read, to_release};
ghost use Rattle.schedule_sim.specs.Steps.{IsActor};

use crate::hands::{holds, put_job, take_job};
use crate::simulation::SimulatedNode;
use node_core::{HeldJob, Next};
use node_model::Pick;
use rel_base::NoMemory;
use row_sets::Versions;

impl<V: Versions> SimulatedNode<V> {
    /// An actor that holds no job claims one.
    pub fn claim(&mut self, actor: u32, pick: Pick) -> Result<(), NoMemory>
        requires actor { IsActor actor }
        requires hands { AreInHands self.old.node self.old.hands }
        ensures takes { OnOk result (Takes self.old.node actor (to_claim (state_of self.old.node) actor pick) self.new.node) }
        ensures hands { OnOk result (AreInHands self.new.node self.new.hands) }
    {
        if holds(&self.hands, actor) {
            return Ok(());
        }
        match self.node.claim(actor, pick)? {
            None => Ok(()),
            Some(work) => {
                put_job(&mut self.hands, actor, work);
                Ok(())
            }
        }
    }

    // A job that is out of its actor's hand makes the read that it wants.
    fn make_read(&mut self, actor: u32, mut work: HeldJob) -> Result<(), NoMemory>
        requires actor { IsActor actor }
        requires work { IsWorkOf self.old.node actor work }
        requires others { AreInHandsBut self.old.node actor self.old.hands }
        requires wants { WantsRead work }
        requires goes { GoesOn next.Wants work }
        ensures takes { OnOk result (Takes self.old.node actor (to_read self.old.node.app (state_of self.old.node) actor) self.new.node) }
        ensures hands { OnOk result (AreInHands self.new.node self.new.hands) }
    {
        self.node.read(&mut work)?;
        put_job(&mut self.hands, actor, work);
        Ok(())
    }

    // A job that is out of its actor's hand makes its next read, where its run is not at its end.
    fn read_job(&mut self, actor: u32, mut work: HeldJob) -> Result<(), NoMemory>
        requires actor { IsActor actor }
        requires work { IsWorkOf self.old.node actor work }
        requires others { AreInHandsBut self.old.node actor self.old.hands }
        ensures takes { OnOk result (Takes self.old.node actor (to_read self.old.node.app (state_of self.old.node) actor) self.new.node) }
        ensures hands { OnOk result (AreInHands self.new.node self.new.hands) }
    {
        match work.advance()? {
            Next::Wants => self.make_read(actor, work),
            _ => {
                put_job(&mut self.hands, actor, work);
                Ok(())
            }
        }
    }

    /// The run of an actor's job makes its next read.
    pub fn read(&mut self, actor: u32) -> Result<(), NoMemory>
        requires actor { IsActor actor }
        requires hands { AreInHands self.old.node self.old.hands }
        ensures takes { OnOk result (Takes self.old.node actor (to_read self.old.node.app (state_of self.old.node) actor) self.new.node) }
        ensures hands { OnOk result (AreInHands self.new.node self.new.hands) }
    {
        match take_job(&mut self.hands, actor) {
            None => Ok(()),
            Some(work) => self.read_job(actor, work),
        }
    }

    // A job that is out of its actor's hand, and whose run is at its end, is finished.
    fn end_job(&mut self, actor: u32, work: HeldJob) -> Result<(), NoMemory>
        requires actor { IsActor actor }
        requires work { IsWorkOf self.old.node actor work }
        requires others { AreInHandsBut self.old.node actor self.old.hands }
        requires ready { IsReady work }
        requires goes { GoesOn next.Ready work }
        ensures takes { OnOk result (Takes self.old.node actor (to_finish self.old.node.app (state_of self.old.node) actor) self.new.node) }
        ensures hands { OnOk result (AreInHands self.new.node self.new.hands) }
    {
        if self.node.finish(work).is_err() {
            return Err(NoMemory);
        }
        Ok(())
    }

    // A job that is out of its actor's hand is finished, where its run is at its end.
    fn finish_job(&mut self, actor: u32, mut work: HeldJob) -> Result<(), NoMemory>
        requires work { IsWorkOf self.old.node actor work }
        requires others { AreInHandsBut self.old.node actor self.old.hands }
        requires actor { IsActor actor }
        ensures hands { OnOk result (AreInHands self.new.node self.new.hands) }
        ensures takes { OnOk result (Takes self.old.node actor (to_finish self.old.node.app (state_of self.old.node) actor) self.new.node) }
    {
        match work.advance()? {
            Next::Ready => self.end_job(actor, work),
            _ => {
                put_job(&mut self.hands, actor, work);
                Ok(())
            }
        }
    }

    /// The run of an actor's job is at its end.
    pub fn finish(&mut self, actor: u32) -> Result<(), NoMemory>
        requires hands { AreInHands self.old.node self.old.hands }
        requires actor { IsActor actor }
        ensures hands { OnOk result (AreInHands self.new.node self.new.hands) }
        ensures takes { OnOk result (Takes self.old.node actor (to_finish self.old.node.app (state_of self.old.node) actor) self.new.node) }
    {
        match take_job(&mut self.hands, actor) {
            None => Ok(()),
            Some(work) => self.finish_job(actor, work),
        }
    }

    /// An actor gives its job up.
    pub fn release(&mut self, actor: u32)
        requires actor { IsActor actor }
        requires hands { AreInHands self.old.node self.old.hands }
        ensures takes { Takes self.old.node actor (to_release (state_of self.old.node) actor) self.new.node }
        ensures hands { AreInHands self.new.node self.new.hands }
    {
        match take_job(&mut self.hands, actor) {
            None => {}
            Some(work) => self.node.release(work),
        }
    }
}
