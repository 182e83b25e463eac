//! The node.

ghost use Rattle.std.specs.Prelude.{◌≡◌, ◌+◌, ◌++◌, ◌∷◌, IfOk, List, OnErr, OnOk, [], length};
ghost use Rattle.block_work.specs.Chain.{StoreFits};
ghost use Rattle.block_work.specs.Ids.{AreUpTo, SamePlaces};
ghost use Rattle.node_model.specs.Fold.{node_result};
ghost use Rattle.plain_node.specs.Holding.{HoldsFold};
ghost use Rattle.proc_syntax.specs.declared.call.Block.{Block as BlockText};
ghost use Rattle.serial_laws.specs.Chained.{AreNumbered};
ghost use Rattle.serial_laws.specs.InOrder.{EachInOrder};

use crate::process::add_block;
use block_work::{Chain, IdIndex};
use node_model::{KeptResult, NodeResult};
use proc_check::Checked;
use proc_syntax::Block;
use rel_base::{List, NoMemory};
use row_sets::Versions;
use std::alloc::Global;
use std::sync::Arc;

/// A node on one thread: the chain of the blocks that it processed, and the ids that stand in it.
///
/// Contracts speak of it by two facts of these parts. `StoreFits` says that the store is one of the application's tables. `HoldsFold` says
/// that the parts are those of the fold of some blocks; what a call promises of such blocks it promises of all whose fold the node holds.
#[derive(Drop)]
pub struct PlainNode<V: Versions> {
    pub chain: Chain<V>,
    pub ids: IdIndex,
    alloc: Global,
}

impl<V: Versions> PlainNode<V> {
    /// A node of an application, before the first block.
    pub fn new(alloc: Global, app: &Arc<Checked>) -> Result<PlainNode<V>, NoMemory>
        ensures app { IfOk result (λ node. node.chain.app.value ≡ app.now.value) }
        ensures store { IfOk result (λ node. StoreFits node.chain.app.value.app (V.tables node.chain.versions) (V.history node.chain.versions) node.chain.blocks) }
        ensures ids { IfOk result (λ node. AreUpTo (length node.chain.blocks) node.ids) }
        ensures holds { IfOk result (λ node. HoldsFold node.chain.app.value.app [] (V.history node.chain.versions) node.ids node.chain.blocks) }
    {
        let chain = Chain::new(alloc, app)?;
        Ok(PlainNode {
            chain,
            ids: IdIndex::new(alloc),
            alloc,
        })
    }

    /// Decides the transactions of the next block, and applies the writes of those that commit. Where memory is wanting, the node is as it
    /// was.
    pub fn process(&mut self, block: &Block) -> Result<(), NoMemory>
        requires next { block.now.number ≡ length self.old.chain.blocks + 1 }
        requires store { StoreFits self.old.chain.app.value.app (V.tables self.old.chain.versions) (V.history self.old.chain.versions) self.old.chain.blocks }
        requires ids { AreUpTo (length self.old.chain.blocks) self.old.ids }
        ensures app { self.new.chain.app.value ≡ self.old.chain.app.value }
        ensures store { StoreFits self.new.chain.app.value.app (V.tables self.new.chain.versions) (V.history self.new.chain.versions) self.new.chain.blocks }
        ensures ids { AreUpTo (length self.new.chain.blocks) self.new.ids }
        ensures count { OnOk result (length self.new.chain.blocks ≡ length self.old.chain.blocks + 1) }
        // Where it held the fold of some blocks, it holds that of these and the next.
        ensures holds { OnOk result ((blocks : List BlockText) → HoldsFold self.old.chain.app.value.app blocks (V.history self.old.chain.versions) self.old.ids self.old.chain.blocks
            → HoldsFold self.old.chain.app.value.app (blocks ++ block.now ∷ []) (V.history self.new.chain.versions) self.new.ids self.new.chain.blocks) }
        // The results then tell for each block an order in which its committed transactions run again one by one.
        ensures replays { OnOk result ((blocks : List BlockText) → AreNumbered 1 (blocks ++ block.now ∷ [])
            → HoldsFold self.old.chain.app.value.app blocks (V.history self.old.chain.versions) self.old.ids self.old.chain.blocks
            → EachInOrder self.old.chain.app.value.app (blocks ++ block.now ∷ []) self.new.chain.blocks) }
        ensures same_history { OnErr result (V.history self.new.chain.versions ≡ V.history self.old.chain.versions) }
        ensures same_ids { OnErr result (SamePlaces self.old.ids self.new.ids) }
        ensures same_blocks { OnErr result (self.new.chain.blocks ≡ self.old.chain.blocks) }
    {
        match add_block(self.alloc, &mut self.chain, &mut self.ids, block) {
            Ok(()) => Ok(()),
            Err((work, refused)) => {
                self.ids.forget(work.number, work.outcomes.as_slice());
                Err(refused)
            }
        }
    }

    /// The results of the blocks so far.
    pub fn blocks(&self) -> &List<KeptResult>
        ensures { result.now ≡ self.now.chain.blocks }
    {
        &self.chain.blocks
    }

    /// The store of the committed writes.
    pub fn versions(&self) -> &V
        ensures { result.now ≡ self.now.chain.versions }
    {
        &self.chain.versions
    }

    /// The results of the blocks, and the tables after the last of them; beside them the store, which has the node's history.
    pub fn close(self) -> Result<(NodeResult, V), NoMemory>
        requires store { StoreFits self.chain.app.value.app (V.tables self.chain.versions) (V.history self.chain.versions) self.chain.blocks }
        ensures report { IfOk result (λ made. (blocks : List BlockText) → HoldsFold self.chain.app.value.app blocks (V.history self.chain.versions) self.ids self.chain.blocks
            → made.0 ≡ node_result self.chain.app.value.app blocks) }
        // The results tell for each block an order in which its committed transactions run again one by one.
        ensures replays { IfOk result (λ made. (blocks : List BlockText) → AreNumbered 1 blocks
            → HoldsFold self.chain.app.value.app blocks (V.history self.chain.versions) self.ids self.chain.blocks
            → EachInOrder self.chain.app.value.app blocks made.0.blocks) }
        ensures store { IfOk result (λ made. V.history made.1 ≡ V.history self.chain.versions) }
    {
        self.chain.close(List::new(self.alloc))
    }
}
