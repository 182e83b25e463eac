//! Several nodes over the same blocks.

ghost use Rattle.std.specs.Prelude.{◌≡◌, ◌≤◌, ◌<◌, All, IfOk, [], length, slice_index_or};
ghost use Rattle.cluster_run.specs.Arrivals.{AreFedBy, IsFedBy};
ghost use Rattle.cluster_run.specs.Nodes.{IsNodeOf};
ghost use Rattle.serial_laws.specs.Chained.{AreNumbered};
ghost use Rattle.proc_syntax.specs.Limits.{most_executors, most_nodes};

use crate::crew::Crew;
use crate::gate::Gate;
use crate::node::run_node;
use crate::shared_block::SharedBlock;
use node_model::NodeResult;
use proc_check::Checked;
use proc_syntax::Tx;
use rel_base::{List, NoMemory};
use row_sets::Versions;
use std::alloc::Global;
use std::sync::{Arc, Wait};
use std::thread;
use std::thread::Threads;

/// What nodes tell of the blocks of a chain, whose numbers run from 1: one node for each list of what arrives, in their order. Each runs in a
/// thread of its own where one can be made, and else they run one after another.
pub fn run_cluster<V: Versions + Send, G: Gate, R: Threads + Wait + Sync>(
    rt: &R,
    alloc: Global,
    app: &Arc<Checked>,
    blocks: &[SharedBlock],
    arrivals: &[List<Tx>],
    executors: u32,
    gate: &G,
) -> Result<List<NodeResult>, NoMemory>
    requires numbered { AreNumbered 1 blocks.now }
    requires nodes { (0 < length arrivals.now) × (length arrivals.now ≤ most_nodes) }
    requires few { executors ≤ most_executors }
    ensures counted { IfOk result (λ nodes. length nodes ≡ length arrivals.now) }
    ensures each { IfOk result (λ nodes. All (IsNodeOf app.now.value.app blocks.now) nodes) }
    ensures fed { IfOk result (λ nodes. AreFedBy nodes arrivals.now) }
{
    let run = move |i: usize| -> Result<NodeResult, NoMemory>
        requires { (i < length arrivals.now) × (length arrivals.now ≤ most_nodes) × AreNumbered 1 blocks.now × (executors ≤ most_executors) }
        ensures node { IfOk result (IsNodeOf app.entry.now.value.app blocks.entry.now) }
        ensures fed { IfOk result (λ told. IsFedBy told (slice_index_or arrivals.entry.now i [])) }
    {
        let crew = Crew::new(
            i as u32 + 1,
            executors,
            blocks,
            arrivals[i].as_slice(),
            gate,
        );
        run_node::<V, G, R>(rt, alloc, app, &crew)
    };
    let told = thread::map_indices(rt, alloc, arrivals.len(), &run)?;
    let mut nodes = List::new(alloc);
    for node in told {
        nodes.push(node?)?;
    }
    Ok(nodes)
}
