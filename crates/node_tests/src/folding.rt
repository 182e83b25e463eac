//! Blocks that one thread folds over a plain list of versions.

ghost use Rattle.serial_laws.specs.Chained.{AreNumbered};

use cluster_run::SharedBlock;
use node_model::NodeResult;
use plain_node::PlainNode;
use proc_check::Checked;
use std::alloc::Global;
use std::sync::Arc;
use std::test::Fail;
use version_store::PlainVersions;

/// The digest of the last of some blocks.
pub fn last_digest(
    alloc: Global,
    app: &Arc<Checked>,
    blocks: &[SharedBlock],
) -> Result<[u8; 32], Fail>
    requires { AreNumbered 1 blocks.now }
{
    let mut node = PlainNode::<PlainVersions>::new(alloc, app)?;
    for block in blocks {
        node.process(block.whole())?;
    }
    match node.blocks().last() {
        None => Err("no block".into()),
        Some(block) => Ok(*block.digest()),
    }
}

/// Whether the last block of a node has this digest.
pub fn ends_with(told: &NodeResult, digest: &[u8; 32]) -> bool {
    match told.blocks.last() {
        None => false,
        Some(block) => *block.digest() == *digest,
    }
}
