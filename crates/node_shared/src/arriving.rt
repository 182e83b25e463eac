//! The turns that bring transactions before their blocks.

ghost use Rattle.std.specs.Prelude.{IfOk, OnErr};
ghost use mathlib.Core.List.{IsPrefix};
ghost use Rattle.node_core.specs.Answers.{arrived_as};
ghost use Rattle.node_shared.specs.Turn.{IsArrival, IsLook};
ghost use Rattle.turn_lock.specs.Passes.{HoldsNoTurn, IsPassOf, IsSamePass, seen};

use crate::shared::{NodePass, SharedNode};
use node_core::{Arrived, share_tx};
use proc_syntax::Tx;
use rel_base::NoMemory;
use row_sets::Versions;
use std::sync::{Arc, Wait};

impl<V: Versions> SharedNode<V> {
    /// A transaction comes before its block. It is copied before the turn.
    pub fn arrive<R: Wait>(
        &self,
        rt: &R,
        pass: &mut NodePass<V>,
        tx: &Tx,
    ) -> Result<Arrived, NoMemory>
        requires lock { IsPassOf self.now.lock pass.old }
        requires no_turn { HoldsNoTurn pass.old }
        ensures same { IsSamePass pass.old pass.new }
        ensures no_turn { HoldsNoTurn pass.new }
        ensures later { IsPrefix (seen pass.old) (seen pass.new) }
        ensures turn { IfOk result (λ got. IsArrival pass.old pass.new tx.now (arrived_as got)) }
        ensures err { OnErr result (IsLook pass.old pass.new) }
    {
        match share_tx(self.alloc, tx) {
            Ok(shared) => self.arrive_shared(rt, pass, &shared),
            Err(refused) => {
                let _ = self.height(rt, pass);
                Err(refused)
            }
        }
    }

    /// What `arrive` does, of a transaction in memory of its own, which the node shares where it waits as a new job. What is not used of it stays with
    /// the caller.
    pub fn arrive_shared<R: Wait>(
        &self,
        rt: &R,
        pass: &mut NodePass<V>,
        tx: &Arc<Tx>,
    ) -> Result<Arrived, NoMemory>
        requires lock { IsPassOf self.now.lock pass.old }
        requires no_turn { HoldsNoTurn pass.old }
        ensures same { IsSamePass pass.old pass.new }
        ensures no_turn { HoldsNoTurn pass.new }
        ensures later { IsPrefix (seen pass.old) (seen pass.new) }
        ensures turn { IfOk result (λ got. IsArrival pass.old pass.new tx.now.value (arrived_as got)) }
        ensures err { OnErr result (IsLook pass.old pass.new) }
    {
        let number = pass.number();
        let mut held = self.take(rt, pass);
        let core = &mut *held;
        // The call of `journal_len` is for its contract: the journal is one that steps can make, as it is found here and as it is left below.
        let _ = core.journal_len();
        let answer = core.arrive_shared(number, tx);
        let _ = core.journal_len();
        self.give(pass, held);
        answer
    }
}
