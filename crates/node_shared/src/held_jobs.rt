//! The turns of a held job: it is claimed, read for, and finished or released.

ghost use Rattle.std.specs.Prelude.{◌≡◌, IfErr, IfOk, IfSome, OnErr};
ghost use mathlib.Core.List.{IsPrefix};
ghost use Rattle.node_core.specs.Answers.{claimed_as, finished_as, got_as};
ghost use Rattle.node_core.specs.Core.{IsHeld, MayAsk};
ghost use Rattle.node_core.specs.Hands.{IsAnswered, IsClaimed};
ghost use Rattle.node_core.specs.InHand.{IsReady, WantsRead};
ghost use Rattle.node_model.specs.Steps.{Released, ToClaim, ToFinish, ToRead, ToRelease};
ghost use Rattle.node_shared.specs.Turn.{IsLook, IsTurn, node_seen};
ghost use Rattle.turn_lock.specs.Passes.{HoldsNoTurn, IsPassOf, IsSamePass, pass_number, seen};

use crate::shared::{NodePass, SharedNode};
use node_core::{Finished, Got, HeldJob};
use node_model::Pick;
use rel_base::NoMemory;
use row_sets::Versions;
use std::sync::Wait;

impl<V: Versions> SharedNode<V> {
    /// A pass that holds no job takes one.
    pub fn claim<R: Wait>(
        &self,
        rt: &R,
        pass: &mut NodePass<V>,
        pick: Pick,
    ) -> Result<Option<HeldJob>, NoMemory>
        requires lock { IsPassOf self.now.lock pass.old }
        requires no_turn { HoldsNoTurn pass.old }
        requires free { MayAsk (node_seen pass.old) (pass_number pass.old) (ToClaim pick) }
        ensures same { IsSamePass pass.old pass.new }
        ensures no_turn { HoldsNoTurn pass.new }
        ensures later { IsPrefix (seen pass.old) (seen pass.new) }
        ensures turn { IfOk result (λ got. IsTurn pass.old pass.new (ToClaim pick) (claimed_as got)) }
        ensures held { IfOk result (λ got. IfSome got (IsHeld (node_seen pass.new))) }
        ensures fresh { IfOk result (λ got. IfSome got (IsClaimed (pass_number pass.old))) }
        ensures err { OnErr result (IsLook pass.old pass.new) }
    {
        let number = pass.number();
        let mut held = self.take(rt, pass);
        let core = &mut *held;
        // The call of `journal_len` is for its contract: the journal is one that steps can make, as it is found here and as it is left below.
        let _ = core.journal_len();
        let answer = core.claim(number, pick);
        let _ = core.journal_len();
        self.give(pass, held);
        answer
    }

    /// Answers the read that a held job of the pass wants.
    pub fn read<R: Wait>(
        &self,
        rt: &R,
        pass: &mut NodePass<V>,
        work: &mut HeldJob,
    ) -> Result<Got, NoMemory>
        requires lock { IsPassOf self.now.lock pass.old }
        requires no_turn { HoldsNoTurn pass.old }
        requires own { work.old.actor ≡ pass_number pass.old }
        requires held { IsHeld (node_seen pass.old) work.old }
        requires wants { WantsRead work.old }
        ensures same { IsSamePass pass.old pass.new }
        ensures no_turn { HoldsNoTurn pass.new }
        ensures later { IsPrefix (seen pass.old) (seen pass.new) }
        ensures turn { IfOk result (λ got. IsTurn pass.old pass.new (ToRead work.old.job) (got_as got)) }
        ensures held { IfOk result (λ got. IsHeld (node_seen pass.new) work.new) }
        ensures answered { IfOk result (λ got. IsAnswered got work.old work.new) }
        ensures err { OnErr result (IsLook pass.old pass.new × (work.new ≡ work.old)) }
    {
        let _ = pass.number();
        let mut held = self.take(rt, pass);
        let core = &mut *held;
        // The call of `journal_len` is for its contract: the journal is one that steps can make, as it is found here and as it is left below.
        let _ = core.journal_len();
        let answer = core.read(work);
        let _ = core.journal_len();
        self.give(pass, held);
        answer
    }

    /// Ends a held job of the pass that is ready.
    pub fn finish<R: Wait>(
        &self,
        rt: &R,
        pass: &mut NodePass<V>,
        work: HeldJob,
    ) -> Result<Finished, (HeldJob, NoMemory)>
        requires lock { IsPassOf self.now.lock pass.old }
        requires no_turn { HoldsNoTurn pass.old }
        requires own { work.actor ≡ pass_number pass.old }
        requires held { IsHeld (node_seen pass.old) work }
        requires ready { IsReady work }
        ensures same { IsSamePass pass.old pass.new }
        ensures no_turn { HoldsNoTurn pass.new }
        ensures later { IsPrefix (seen pass.old) (seen pass.new) }
        ensures turn { IfOk result (λ got. IsTurn pass.old pass.new (ToFinish work.job) (finished_as got)) }
        ensures err { OnErr result (IsLook pass.old pass.new) }
        ensures back { IfErr result (λ refused. refused.0 ≡ work) }
    {
        let _ = pass.number();
        let mut held = self.take(rt, pass);
        let core = &mut *held;
        // The call of `journal_len` is for its contract: the journal is one that steps can make, as it is found here and as it is left below.
        let _ = core.journal_len();
        let answer = core.finish(work);
        let _ = core.journal_len();
        self.give(pass, held);
        answer
    }

    /// Gives a held job of the pass up. Takes no memory, and drops the job after the turn.
    pub fn release<R: Wait>(&self, rt: &R, pass: &mut NodePass<V>, work: HeldJob)
        requires lock { IsPassOf self.now.lock pass.old }
        requires no_turn { HoldsNoTurn pass.old }
        requires own { work.actor ≡ pass_number pass.old }
        requires held { IsHeld (node_seen pass.old) work }
        ensures same { IsSamePass pass.old pass.new }
        ensures no_turn { HoldsNoTurn pass.new }
        ensures later { IsPrefix (seen pass.old) (seen pass.new) }
        ensures turn { IsTurn pass.old pass.new (ToRelease work.job) Released }
    {
        let _ = pass.number();
        let mut held = self.take(rt, pass);
        let core = &mut *held;
        // The call of `journal_len` is for its contract: the journal is one that steps can make, as it is found here and as it is left below.
        let _ = core.journal_len();
        core.give_up(&work);
        let _ = core.journal_len();
        self.give(pass, held);
    }
}
