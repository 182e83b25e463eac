//! The chain of decided blocks.

ghost use Rattle.std.specs.Prelude.{◌≡◌, ◌<◌, ◌≤◌, ◌+◌, ◌++◌, ◌-◌, ◌∷◌, All, IfErr, IfOk, List, OnErr, OnOk, [], length, slice_get};
ghost use Rattle.block_work.specs.Block.{IsConsistent, StandInOrder, sealed_of};
ghost use Rattle.block_work.specs.Causes.{IsVerdictOn, RunFits, outcome_of};
ghost use Rattle.block_work.specs.Chain.{ResultsFrom, HoldsChain, StoreFits, stamps, time_of_result, time_or_none};
ghost use Rattle.block_work.specs.Results.{last_digest};
ghost use Rattle.node_model.specs.Decide.{by_run, or_committed};
ghost use Rattle.node_model.specs.Fold.{all_rows, block_result, results_of};
ghost use Rattle.node_model.specs.History.{SealedBlock, placed_of, snapshot, time_at};
ghost use Rattle.proc_check.specs.Sizes.{IsSmall};
ghost use Rattle.proc_syntax.specs.Declaring.{tables_of};
ghost use Rattle.rel_base.specs.Tables.{writes_between};
ghost use Rattle.rel_base.specs.declared.schema.TableDef.{TableDef};
ghost use Rattle.proc_syntax.specs.Limits.{most_transactions};

use crate::block::BlockInWork;
use crate::causes::{find_cause, judge_edges};
use crate::listing::list_tables;
use crate::result::{last_digest, result_of};
use crate::verdict::Verdict;
use block_digest::count_writes;
use node_model::{Committed, Entry, KeptResult, NodeResult};
use proc_check::Checked;
use proc_syntax::run::Ran;
use rel_base::{List, NoMemory, Place};
use row_sets::Versions;
use std::alloc::Global;
use std::sync::Arc;

// The time of the block at a place; 0 where there is none.
fn time_at(blocks: &[KeptResult], place: usize) -> i64
    ensures { result ≡ time_or_none (slice_get blocks.now place) }
{
    match blocks.get(place) {
        None => 0,
        Some(block) => block.time(),
    }
}

// The time of the block of a height, of blocks that are numbered from 1; 0 where there is none.
#[tactic(auto, using(crate::proofs::Times::time_before, crate::proofs::Times::time_of_height))]
fn time_in(blocks: &[KeptResult], height: u64) -> i64
    requires { ResultsFrom 1 blocks.now }
    ensures { result ≡ time_of_result height blocks.now }
{
    if height == 0 {
        return 0;
    }
    time_at(blocks, height as usize - 1)
}

// Takes the room for the writes of a block, and adds its result. Where memory is wanting, no more than the room has changed.
fn add_result<V: Versions>(
    alloc: Global,
    versions: &mut V,
    blocks: &mut List<KeptResult>,
    work: &BlockInWork,
) -> Result<(), NoMemory>
    requires small { All IsSmall (V.tables versions.old) }
    requires few { length work.now.outcomes.items ≤ most_transactions }
    requires consistent { IsConsistent (V.tables versions.old) work.now }
    ensures tables { V.tables versions.new ≡ V.tables versions.old }
    ensures history { V.history versions.new ≡ V.history versions.old }
    ensures room { OnOk result (length (placed_of work.now.committed.items) ≤ V.spare versions.new) }
    ensures added { OnOk result (blocks.new ≡ blocks.old ++ block_result (V.tables versions.old) (last_digest blocks.old) (sealed_of work.now) ∷ []) }
    ensures same { OnErr result (blocks.new ≡ blocks.old) }
{
    versions.reserve(count_writes(work.committed.as_slice()))?;
    let previous = last_digest(blocks);
    let result = result_of(alloc, &previous, work)?;
    blocks.push(result)
}

// Applies the writes of committed transactions of the block of a number, for which there is room.
fn apply_all<V: Versions>(versions: &mut V, number: u64, committed: Vec<Committed>)
    requires order { StandInOrder (V.tables versions.old) 0 committed.items most_transactions }
    requires below { All (λ stamped. stamped.0 < number) (V.history versions.old) }
    requires room { length (placed_of committed.items) ≤ V.spare versions.old }
    ensures tables { V.tables versions.new ≡ V.tables versions.old }
    ensures history { V.history versions.new ≡ V.history versions.old ++ stamps number committed.items }
{
    let mut last = 0;
    for done in committed {
        // positions rise, so that each place is above those of the writes before
        prove!(last < done.pos);
        last = done.pos;
        let place = Place {
            block: number,
            pos: done.pos,
        };
        versions.apply(place, done.writes);
    }
    // A store may put off its order until room is taken again, so that it is in order before the next reads. Where that fails for want of
    // memory, it answers as before, only later.
    let _ = versions.reserve(0);
}

/// The chain of the blocks that were decided on an application: a store of the committed writes, and the results of the blocks.
///
/// Contracts speak of it by two facts. `StoreFits` says that the store is one of the application's tables, with writes of the blocks so
/// far. `HoldsChain` says that store and results are those of some decided blocks; what a call promises of such blocks it promises of all
/// that the chain holds.
#[derive(Drop)]
pub struct Chain<V: Versions> {
    pub app: Arc<Checked>,
    pub versions: V,
    pub blocks: List<KeptResult>,
    alloc: Global,
}

impl<V: Versions> Chain<V> {
    /// The chain of no blocks.
    pub fn new(alloc: Global, app: &Arc<Checked>) -> Result<Chain<V>, NoMemory>
        ensures app { IfOk result (λ chain. chain.app.value ≡ app.now.value) }
        ensures store { IfOk result (λ chain. StoreFits chain.app.value.app (V.tables chain.versions) (V.history chain.versions) chain.blocks) }
        ensures holds { IfOk result (λ chain. HoldsChain (tables_of chain.app.value.app) [] (V.history chain.versions) chain.blocks) }
    {
        let versions = V::new(alloc, app.tables())?;
        Ok(Chain {
            app: app.clone()?,
            versions,
            blocks: List::new(alloc),
            alloc,
        })
    }

    /// How many blocks were decided.
    pub fn height(&self) -> u64
        ensures { result ≡ length self.now.blocks }
    {
        self.blocks.len() as u64
    }

    /// The time of the block of a height; 0 before the first.
    pub fn time_of(&self, height: u64) -> i64
        requires store { StoreFits self.now.app.value.app (V.tables self.now.versions) (V.history self.now.versions) self.now.blocks }
        ensures { (chain : List SealedBlock) → HoldsChain (tables_of self.now.app.value.app) chain (V.history self.now.versions) self.now.blocks → result ≡ time_at height chain }
    {
        time_in(self.blocks.as_slice(), height)
    }

    /// What is decided by its run of a transaction of a block in work, where nothing aborts it without a run: the first cause that the run
    /// shows, or that it commits. The run is one on the tables after the block of a height.
    pub fn judge(&self, work: &BlockInWork, ran: &Ran, height: u64) -> Result<Verdict, NoMemory>
        requires store { StoreFits self.now.app.value.app (V.tables self.now.versions) (V.history self.now.versions) self.now.blocks }
        requires number { 0 < work.now.number }
        requires few { length work.now.outcomes.items < most_transactions }
        requires consistent { IsConsistent (tables_of self.now.app.value.app) work.now }
        requires fits { RunFits (tables_of self.now.app.value.app) ran.now }
        ensures outcome { IfOk result (λ verdict. outcome_of verdict ≡ or_committed (by_run self.now.app.value.app.exact (tables_of self.now.app.value.app)
            (writes_between height (work.now.number - 1) (V.history self.now.versions)) work.now.committed.items ran.now)) }
        ensures verdict { IfOk result (λ verdict. IsVerdictOn (tables_of self.now.app.value.app) work.now.committed.items ran.now verdict) }
    {
        match find_cause(self.alloc, &self.versions, work, ran, height)? {
            Some(cause) => Ok(Verdict::Aborts(cause)),
            None => judge_edges(
                self.alloc,
                self.app.app().exact,
                self.app.tables(),
                work,
                ran,
            ),
        }
    }

    /// Adds the next block, all of whose transactions are decided: its result, with its serial order and its digest, and its writes. Where
    /// memory is wanting, the chain is as it was, and the block comes back.
    pub fn seal(&mut self, work: BlockInWork) -> Result<(), (BlockInWork, NoMemory)>
        requires store { StoreFits self.old.app.value.app (V.tables self.old.versions) (V.history self.old.versions) self.old.blocks }
        requires next { work.number ≡ length self.old.blocks + 1 }
        requires few { length work.outcomes.items ≤ most_transactions }
        requires consistent { IsConsistent (tables_of self.old.app.value.app) work }
        ensures app { self.new.app.value ≡ self.old.app.value }
        ensures store { StoreFits self.new.app.value.app (V.tables self.new.versions) (V.history self.new.versions) self.new.blocks }
        ensures count { OnOk result (length self.new.blocks ≡ length self.old.blocks + 1) }
        ensures holds { OnOk result ((chain : List SealedBlock) → HoldsChain (tables_of self.old.app.value.app) chain (V.history self.old.versions) self.old.blocks
            → HoldsChain (tables_of self.old.app.value.app) (chain ++ sealed_of work ∷ []) (V.history self.new.versions) self.new.blocks) }
        ensures same_history { OnErr result (V.history self.new.versions ≡ V.history self.old.versions) }
        ensures same_blocks { OnErr result (self.new.blocks ≡ self.old.blocks) }
        ensures back { IfErr result (λ refused. refused.0 ≡ work) }
    {
        if let Err(refused) = add_result(self.alloc, &mut self.versions, &mut self.blocks, &work) {
            return Err((work, refused));
        }
        apply_all(&mut self.versions, work.number, work.committed);
        Ok(())
    }

    /// The results of the blocks, the tables after the last of them, and a journal; beside them the store.
    pub fn close(self, journal: List<Entry>) -> Result<(NodeResult, V), NoMemory>
        requires store { StoreFits self.app.value.app (V.tables self.versions) (V.history self.versions) self.blocks }
        ensures report { IfOk result (λ made. (chain : List SealedBlock) → HoldsChain (tables_of self.app.value.app) chain (V.history self.versions) self.blocks
            → made.0 ≡ record { blocks = results_of (tables_of self.app.value.app) chain; tables = all_rows (snapshot (length chain) chain) 0 (tables_of self.app.value.app); journal = journal }) }
        ensures store { IfOk result (λ made. V.history made.1 ≡ V.history self.versions) }
    {
        let tables = list_tables(
            self.alloc,
            &self.versions,
            self.app.tables().as_slice(),
            self.height(),
        )?;
        let result = NodeResult {
            blocks: self.blocks,
            tables,
            journal,
        };
        Ok((result, self.versions))
    }
}
