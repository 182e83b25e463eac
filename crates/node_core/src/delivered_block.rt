//! The block that was delivered and is in work.

ghost use Rattle.std.specs.Prelude.{◌≡◌, map};
ghost use Rattle.std.specs.List.{list_any};
ghost use Rattle.std.specs.Str.{bytes_eq};
ghost use Rattle.node_core.specs.Fresh.{HasIds};

use block_work::BlockInWork;
use proc_syntax::Block;
use rel_base::Id;
use std::collections::BTreeSet;
use std::marker::Model;
use std::sync::Arc;

/// A block, which the journal shares, beside the set of its transactions' ids, so that an id is looked up and not compared with each.
///
/// Contracts see the block alone.
#[derive(Drop)]
pub struct IndexedBlock {
    block: Arc<Block>,
    ids: BTreeSet<Id>,
}

impl Model for IndexedBlock {
    ghost use Rattle.node_core.specs.Fresh.{HasIds};
    ghost use Rattle.node_model.specs.Steps.{Shared};
    ghost use Rattle.proc_syntax.specs.declared.call.Block.{Block as Taken};

    ghost Value = { Shared Taken };

    ghost view = { λ indexed. indexed.block };

    ghost invariant = { λ indexed. HasIds indexed.ids indexed.block.value.txs };
}

impl IndexedBlock {
    /// A block beside the set of its transactions' ids.
    pub fn new(block: Arc<Block>, ids: BTreeSet<Id>) -> IndexedBlock
        requires { HasIds ids block.value.txs }
        ensures { result ≡ block }
    {
        IndexedBlock { block, ids }
    }

    /// The block.
    pub fn get(&self) -> &Block
        ensures { result.now ≡ self.now.value }
    {
        &self.block
    }

    /// Whether one of its transactions has the id.
    pub fn has_id(&self, id: &Id) -> bool
        ensures { result ≡ list_any (bytes_eq id.now) (map (λ tx. tx.id) self.now.value.txs) }
    {
        self.ids.contains(id)
    }
}

/// The block that was delivered and is in work, and what its first transactions came to.
#[derive(Drop)]
pub struct DeliveredBlock {
    pub block: IndexedBlock,
    pub done: BlockInWork,
}
