//! The turns of the processor, which bring blocks, decide their transactions and seal them.

ghost use Rattle.std.specs.Prelude.{◌≡◌, IfOk, OnErr, map};
ghost use mathlib.Core.List.{IsPrefix};
ghost use Rattle.node_core.specs.Answers.{decided_as, delivered_as, sealed_as};
ghost use Rattle.node_model.specs.Steps.{ToCommit, ToSeal};
ghost use Rattle.node_shared.specs.Turn.{IsDelivery, IsLook, IsTurn};
ghost use Rattle.turn_lock.specs.Passes.{HoldsNoTurn, IsPassOf, IsSamePass, pass_number, seen};

use crate::shared::{NodePass, SharedNode};
use node_core::{Decided, Delivered, Sealed, share_block, share_txs};
use proc_syntax::{Block, Tx};
use rel_base::NoMemory;
use row_sets::Versions;
use std::alloc::Global;
use std::sync::{Arc, Wait};

// Copies of a block and of its transactions one by one, each in memory of its own.
fn share_whole(alloc: Global, block: &Block) -> Result<(Arc<Block>, Vec<Arc<Tx>>), NoMemory>
    ensures block { IfOk result (λ shared. shared.0.value ≡ block.now) }
    ensures txs { IfOk result (λ shared. map (λ tx. tx.value) shared.1.items ≡ block.now.txs) }
{
    let shared = share_block(alloc, block)?;
    let txs = share_txs(alloc, block.txs.as_slice())?;
    Ok((shared, txs))
}

impl<V: Versions> SharedNode<V> {
    /// The next block of the chain comes. It is copied before the turn, and what is not used of the copies is dropped after it.
    pub fn deliver<R: Wait>(
        &self,
        rt: &R,
        pass: &mut NodePass<V>,
        block: &Block,
    ) -> Result<Delivered, NoMemory>
        requires lock { IsPassOf self.now.lock pass.old }
        requires no_turn { HoldsNoTurn pass.old }
        requires processor { pass_number pass.old ≡ 0 }
        ensures same { IsSamePass pass.old pass.new }
        ensures no_turn { HoldsNoTurn pass.new }
        ensures later { IsPrefix (seen pass.old) (seen pass.new) }
        ensures turn { IfOk result (λ got. IsDelivery pass.old pass.new block.now (delivered_as got)) }
        ensures err { OnErr result (IsLook pass.old pass.new) }
    {
        match share_whole(self.alloc, block) {
            Ok((shared, txs)) => self.deliver_shared(rt, pass, &shared, txs.as_slice()),
            Err(refused) => {
                let _ = self.height(rt, pass);
                Err(refused)
            }
        }
    }

    /// The same of a block in memory of its own, beside its transactions one by one, of which the node shares the block and those that need
    /// a job. What is not used of them stays with the caller.
    pub fn deliver_shared<R: Wait>(
        &self,
        rt: &R,
        pass: &mut NodePass<V>,
        block: &Arc<Block>,
        txs: &[Arc<Tx>],
    ) -> Result<Delivered, NoMemory>
        requires lock { IsPassOf self.now.lock pass.old }
        requires no_turn { HoldsNoTurn pass.old }
        requires processor { pass_number pass.old ≡ 0 }
        requires txs { map (λ tx. tx.value) txs.now ≡ block.now.value.txs }
        ensures same { IsSamePass pass.old pass.new }
        ensures no_turn { HoldsNoTurn pass.new }
        ensures later { IsPrefix (seen pass.old) (seen pass.new) }
        ensures turn { IfOk result (λ got. IsDelivery pass.old pass.new block.now.value (delivered_as got)) }
        ensures err { OnErr result (IsLook pass.old pass.new) }
    {
        let number = pass.number();
        let mut held = self.take(rt, pass);
        let core = &mut *held;
        // The call of `journal_len` is for its contract: the journal is one that steps can make, as it is found here and as it is left below.
        let _ = core.journal_len();
        let answer = core.deliver_shared(number, block, txs);
        let _ = core.journal_len();
        self.give(pass, held);
        answer
    }

    /// Decides the first undecided transaction of the block in work.
    pub fn commit<R: Wait>(&self, rt: &R, pass: &mut NodePass<V>) -> Result<Decided, NoMemory>
        requires lock { IsPassOf self.now.lock pass.old }
        requires no_turn { HoldsNoTurn pass.old }
        requires processor { pass_number pass.old ≡ 0 }
        ensures turn { IfOk result (λ got. IsTurn pass.old pass.new ToCommit (decided_as got)) }
        ensures err { OnErr result (IsLook pass.old pass.new) }
        ensures same { IsSamePass pass.old pass.new }
        ensures no_turn { HoldsNoTurn pass.new }
        ensures later { IsPrefix (seen pass.old) (seen pass.new) }
    {
        let number = pass.number();
        let mut held = self.take(rt, pass);
        let core = &mut *held;
        // The call of `journal_len` is for its contract: the journal is one that steps can make, as it is found here and as it is left below.
        let _ = core.journal_len();
        let answer = core.commit(number);
        let _ = core.journal_len();
        self.give(pass, held);
        answer
    }

    /// Seals the block in work, all of whose transactions are decided.
    pub fn seal<R: Wait>(&self, rt: &R, pass: &mut NodePass<V>) -> Result<Sealed, NoMemory>
        requires lock { IsPassOf self.now.lock pass.old }
        requires no_turn { HoldsNoTurn pass.old }
        requires processor { pass_number pass.old ≡ 0 }
        ensures same { IsSamePass pass.old pass.new }
        ensures no_turn { HoldsNoTurn pass.new }
        ensures later { IsPrefix (seen pass.old) (seen pass.new) }
        ensures turn { IfOk result (λ got. IsTurn pass.old pass.new ToSeal (sealed_as got)) }
        ensures err { OnErr result (IsLook pass.old pass.new) }
    {
        let number = pass.number();
        let mut held = self.take(rt, pass);
        let core = &mut *held;
        // The call of `journal_len` is for its contract: the journal is one that steps can make, as it is found here and as it is left below.
        let _ = core.journal_len();
        let answer = core.seal(number);
        let _ = core.journal_len();
        self.give(pass, held);
        answer
    }
}
