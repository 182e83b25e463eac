//! Blocks that one node runs on one thread, as they come.

ghost use Rattle.std.specs.Prelude.{◌≡◌, ◌+◌, ◌++◌, ◌∷◌, List, OnOk, []};
ghost use Rattle.bcdb.specs.Folds.{HoldsFirst};
ghost use Rattle.chain_file.specs.Numbered.{NumberedFrom};
ghost use Rattle.proc_syntax.specs.declared.call.Block.{Block as BlockText};

use plain_node::PlainNode;
use proc_syntax::Block;
use rel_base::{List, NoMemory};
use row_sets::Versions;

// Gives the next block to a node, which processes those up to a height.
#[tactic(auto, using(crate::proofs::Processed::next_held, crate::proofs::Processed::passed_held))]
fn take_block<V: Versions>(
    node: &mut PlainNode<V>,
    taken: &mut u64,
    height: u64,
    block: &Block,
) -> Result<(), NoMemory>
    requires next { block.now.number ≡ taken.old + 1 }
    requires holds { (blocks : List BlockText) × HoldsFirst height blocks taken.old node.old.chain.app.value.app (V.tables node.old.chain.versions) (V.history node.old.chain.versions) node.old.ids node.old.chain.blocks }
    ensures app { node.new.chain.app.value ≡ node.old.chain.app.value }
    ensures holds { OnOk result ((blocks : List BlockText) → HoldsFirst height blocks taken.old node.old.chain.app.value.app (V.tables node.old.chain.versions) (V.history node.old.chain.versions) node.old.ids node.old.chain.blocks
        → HoldsFirst height (blocks ++ block.now ∷ []) taken.new node.new.chain.app.value.app (V.tables node.new.chain.versions) (V.history node.new.chain.versions) node.new.ids node.new.chain.blocks) }
{
    if block.number <= height {
        node.process(block)?;
    }
    *taken = block.number;
    Ok(())
}

/// Gives the next blocks of a file to a node, which processes those up to a height. The count of those that it was given goes on.
/// Each is let go once it was processed, so that the node has its memory for what it keeps.
pub fn take_blocks<V: Versions>(
    node: &mut PlainNode<V>,
    taken: &mut u64,
    height: u64,
    blocks: List<Block>,
) -> Result<(), NoMemory>
    requires holds { (before : List BlockText) × (NumberedFrom 1 (before ++ blocks)
        × HoldsFirst height before taken.old node.old.chain.app.value.app (V.tables node.old.chain.versions) (V.history node.old.chain.versions) node.old.ids node.old.chain.blocks) }
    ensures app { OnOk result (node.new.chain.app.value ≡ node.old.chain.app.value) }
    ensures holds { OnOk result ((before : List BlockText) → HoldsFirst height before taken.old node.old.chain.app.value.app (V.tables node.old.chain.versions) (V.history node.old.chain.versions) node.old.ids node.old.chain.blocks
        → HoldsFirst height (before ++ blocks) taken.new node.new.chain.app.value.app (V.tables node.new.chain.versions) (V.history node.new.chain.versions) node.new.ids node.new.chain.blocks) }
{
    for block in blocks.into_vec() {
        take_block(node, taken, height, &block)?;
    }
    Ok(())
}
