//! Blocks in memory of their own, which nodes share with their journals.

ghost use Rattle.std.specs.Prelude.{◌≡◌, IfOk, map};

use node_core::{share_block, share_txs};
use proc_syntax::{Block, Tx};
use rel_base::{List, NoMemory};
use std::alloc::Global;
use std::marker::Model;
use std::sync::Arc;

/// A block in memory of its own. A node to which it is delivered shares it, and so does its journal, so that it stands in memory once,
/// however many nodes run it. Contracts see the block.
#[derive(Drop)]
pub struct SharedBlock {
    block: Arc<Block>,
    alloc: Global,
}

impl Model for SharedBlock {
    ghost use Rattle.proc_syntax.specs.contracts.call.Block as block_code;
    ghost use Rattle.proc_syntax.specs.declared.call.Block.{Block as Shown};

    ghost Value = { Shown };

    ghost coded = { block_code.the_row.coded };

    ghost view = { λ shared. shared.block.value };
}

impl SharedBlock {
    /// A copy of a block, which has no more room than it needs.
    pub fn new(alloc: Global, block: &Block) -> Result<SharedBlock, NoMemory>
        ensures { IfOk result (λ shared. shared ≡ block.now) }
    {
        let block = share_block(alloc, block)?;
        Ok(SharedBlock { block, alloc })
    }

    /// The block, to be shared.
    pub fn whole(&self) -> &Arc<Block>
        ensures { result.now.value ≡ self.now }
    {
        &self.block
    }

    /// Copies of its transactions, each in memory of its own.
    pub fn txs(&self) -> Result<Vec<Arc<Tx>>, NoMemory>
        ensures { IfOk result (λ txs. map (λ tx. tx.value) txs.items ≡ self.now.txs) }
    {
        share_txs(self.alloc, self.block.txs.as_slice())
    }
}

/// Blocks that nodes may share. Each is let go once it was copied.
pub fn share_blocks(alloc: Global, blocks: List<Block>) -> Result<List<SharedBlock>, NoMemory>
    ensures { IfOk result (λ shared. shared ≡ blocks) }
{
    let mut shared = List::new(alloc);
    for block in blocks.into_vec() {
        shared.push(SharedBlock::new(alloc, &block)?)?;
    }
    Ok(shared)
}
