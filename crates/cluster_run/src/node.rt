//! A node that runs over the blocks of a chain.

ghost use Rattle.std.specs.Prelude.{◌≡◌, ◌≤◌, IfOk, List, [], ℕ};
ghost use Rattle.cluster_run.specs.Arrivals.{IsFedBy};
ghost use Rattle.cluster_run.specs.Nodes.{IsNodeOf};
ghost use Rattle.cluster_run.specs.Standing.{AllBring, HasProcessed, delivered_by};
ghost use Rattle.proc_syntax.specs.declared.call.Tx.{Tx};
ghost use Rattle.serial_laws.specs.Chained.{AreNumbered};
ghost use Rattle.turn_lock.specs.Passes.{joined, made, pass_base};
ghost use Rattle.proc_syntax.specs.Limits.{most_executors};

use crate::crew::Crew;
use crate::gate::Gate;
use crate::threads::run_crew;
use node_core::NodeCore;
use node_model::NodeResult;
use node_shared::{NodePass, SharedNode};
use proc_check::Checked;
use rel_base::NoMemory;
use row_sets::Versions;
use std::alloc::Global;
use std::sync::{Arc, Wait};
use std::thread::Threads;

// A shared node to which nothing has happened, with the processor's pass.
fn open_node<V: Versions>(
    alloc: Global,
    app: &Arc<Checked>,
) -> Result<(SharedNode<V>, NodePass<V>), NoMemory>
    ensures processed { IfOk result (λ opened. HasProcessed opened.0.lock app.now.value.app [] opened.1) }
    ensures made { IfOk result (λ opened. made opened.1 ≡ 0) }
    ensures joined { IfOk result (λ opened. joined opened.1 ≡ []) }
{
    let core = NodeCore::new(alloc, app)?;
    SharedNode::new(alloc, core)
}

// What a node tells, once its pass is alone and no block is in work.
fn close_node<V: Versions>(node: SharedNode<V>, pass: NodePass<V>) -> Result<NodeResult, NoMemory>
    requires processed { HasProcessed node.lock (pass_base pass) (delivered_by pass) pass }
    requires numbered { AreNumbered 1 (delivered_by pass) }
    ensures node { IfOk result (IsNodeOf (pass_base pass) (delivered_by pass)) }
    ensures fed { IfOk result (λ told. (executors : ℕ) (handed : List Tx) → AllBring executors handed pass → IsFedBy told handed) }
{
    node.close(pass).close()
}

/// What a node tells of the blocks of a chain, whose numbers run from 1, whatever arrives there and whatever its executors do. What arrived
/// there is of the arrivals that it was given.
pub fn run_node<V: Versions + Send, G: Gate, R: Threads + Wait + Sync>(
    rt: &R,
    alloc: Global,
    app: &Arc<Checked>,
    crew: &Crew<'_, G>,
) -> Result<NodeResult, NoMemory>
    requires numbered { AreNumbered 1 crew.now.blocks.now }
    requires few { crew.now.executors ≤ most_executors }
    ensures node { IfOk result (IsNodeOf app.now.value.app crew.now.blocks.now) }
    ensures fed { IfOk result (λ told. IsFedBy told crew.now.arrivals.now) }
{
    let (node, pass) = open_node::<V>(alloc, app)?;
    let own = run_crew(rt, alloc, &node, crew, pass)?;
    close_node(node, own)
}
