//! Turns in which a node tells of its state.

ghost use Rattle.std.specs.Prelude.{◌≡◌, IfOk, length};
ghost use Rattle.std.specs.Option.{option_copied};
ghost use mathlib.Core.List.{IsPrefix};
ghost use Rattle.node_core.specs.Core.{world_of};
ghost use Rattle.node_core.specs.Looking.{first_outcome, looks, told_of};
ghost use Rattle.node_shared.specs.Turn.{IsLook, node_seen};
ghost use Rattle.proc_syntax.specs.Declaring.{tables_of};
ghost use Rattle.rel_base.specs.Among.{ReadFitsIn};
ghost use Rattle.turn_lock.specs.Passes.{HoldsNoTurn, IsPassOf, IsSamePass, pass_base, seen};

use crate::shared::{NodePass, SharedNode};
use node_core::Looked;
use node_model::Outcome;
use rel_base::{Id, NoMemory, Read, Twin};
use row_sets::Versions;
use std::alloc::Global;
use std::sync::Wait;

// A copy of an outcome, if there is one.
fn copy_outcome(alloc: Global, outcome: Option<&Outcome>) -> Result<Option<Outcome>, NoMemory>
    ensures { IfOk result (λ copy. copy ≡ option_copied outcome.entry) }
{
    match outcome {
        None => Ok(None),
        Some(outcome) => Ok(Some(outcome.copy(alloc)?)),
    }
}

impl<V: Versions> SharedNode<V> {
    /// How many blocks are sealed.
    pub fn height<R: Wait>(&self, rt: &R, pass: &mut NodePass<V>) -> u64
        requires lock { IsPassOf self.now.lock pass.old }
        requires no_turn { HoldsNoTurn pass.old }
        ensures same { IsSamePass pass.old pass.new }
        ensures no_turn { HoldsNoTurn pass.new }
        ensures later { IsPrefix (seen pass.old) (seen pass.new) }
        ensures turn { IsLook pass.old pass.new }
        ensures height { result ≡ length (world_of (node_seen pass.new)).sealed }
    {
        let _ = pass.number();
        let core = self.take(rt, pass);
        // The call of `journal_len` is for its contract: the journal that is found is one that steps can make.
        let _ = core.journal_len();
        let height = core.height();
        self.give(pass, core);
        height
    }

    /// The rows of a read in the tables after the block of a height, where that block is sealed.
    pub fn look<R: Wait>(
        &self,
        rt: &R,
        pass: &mut NodePass<V>,
        height: u64,
        read: &Read,
    ) -> Result<Looked, NoMemory>
        requires lock { IsPassOf self.now.lock pass.old }
        requires no_turn { HoldsNoTurn pass.old }
        requires fits { ReadFitsIn (tables_of (pass_base pass.old)) read.now }
        ensures same { IsSamePass pass.old pass.new }
        ensures no_turn { HoldsNoTurn pass.new }
        ensures later { IsPrefix (seen pass.old) (seen pass.new) }
        ensures turn { IsLook pass.old pass.new }
        ensures rows { IfOk result (λ looked. looked ≡ looks (node_seen pass.new) height read.now) }
    {
        let _ = pass.number();
        let core = self.take(rt, pass);
        // The call of `journal_len` is for its contract: the journal that is found is one that steps can make.
        let _ = core.journal_len();
        let looked = core.look(height, read);
        self.give(pass, core);
        looked
    }
    /// What became of the first decided transaction with an id.
    pub fn outcome<R: Wait>(
        &self,
        rt: &R,
        alloc: Global,
        pass: &mut NodePass<V>,
        id: &Id,
    ) -> Result<Option<Outcome>, NoMemory>
        requires lock { IsPassOf self.now.lock pass.old }
        requires no_turn { HoldsNoTurn pass.old }
        ensures same { IsSamePass pass.old pass.new }
        ensures no_turn { HoldsNoTurn pass.new }
        ensures later { IsPrefix (seen pass.old) (seen pass.new) }
        ensures turn { IsLook pass.old pass.new }
        ensures outcome { IfOk result (λ told. told ≡ first_outcome id.now (told_of (world_of (node_seen pass.new)))) }
    {
        let _ = pass.number();
        let core = self.take(rt, pass);
        // The call of `journal_len` is for its contract: the journal that is found is one that steps can make.
        let _ = core.journal_len();
        let told = copy_outcome(alloc, core.outcome(id));
        self.give(pass, core);
        told
    }
}
