//! Nodes to which nothing has happened.

ghost use Rattle.std.specs.Prelude.{◌≡◌, IfOk, []};
ghost use Rattle.cluster_run.specs.Standing.{HasProcessed};
ghost use Rattle.turn_lock.specs.Passes.{made};

use node_core::NodeCore;
use node_shared::{NodePass, SharedNode};
use proc_check::Checked;
use rel_base::NoMemory;
use row_sets::Versions;
use std::alloc::Global;
use std::sync::Arc;

/// A shared node of an application, with its first pass, which is the processor's.
pub fn open_node<V: Versions>(
    alloc: Global,
    app: &Arc<Checked>,
) -> Result<(SharedNode<V>, NodePass<V>), NoMemory>
    ensures processed { IfOk result (λ opened. HasProcessed opened.0.lock app.now.value.app [] opened.1) }
    ensures made { IfOk result (λ opened. made opened.1 ≡ 0) }
{
    let core = NodeCore::new(alloc, app)?;
    SharedNode::new(alloc, core)
}
