//! Whole clusters whose gate holds a node, or a block.

ghost use Rattle.std.specs.Prelude.{◌<◌, ◌≤◌, length};
ghost use Rattle.proc_syntax.specs.Limits.{most_nodes};
ghost use Rattle.serial_laws.specs.Chained.{AreNumbered};

use crate::calls::{PAYMENT, accounts, calls, three_blocks};
use crate::folding::{ends_with, last_digest};
use crate::holding::Holding;
use crate::journals::{arrival_of, is_claimed_before};
use crate::one_held::OneHeld;
use cluster_run::{Gate, SharedBlock, run_cluster};
use node_model::{Entry, NodeResult};
use proc_check::Checked;
use proc_syntax::Tx;
use rel_base::List;
use std::alloc::Global;
use std::sync::{Arc, Wait};
use std::test::Fail;
use std::thread::Threads;
use version_index::IndexVersions;

// What nodes with one executor each tell, one for each list of what arrives. It has to be what one thread comes to.
fn run_blocks<G: Gate, R: Threads + Wait + Sync>(
    rt: &R,
    alloc: Global,
    app: &Arc<Checked>,
    blocks: &[SharedBlock],
    arrivals: &[List<Tx>],
    gate: &G,
) -> Result<List<NodeResult>, Fail>
    requires numbered { AreNumbered 1 blocks.now }
    requires nodes { (0 < length arrivals.now) × (length arrivals.now ≤ most_nodes) }
{
    let digest = last_digest(alloc, app, blocks)?;
    let nodes = run_cluster::<IndexVersions, _, _>(rt, alloc, app, blocks, arrivals, 1, gate)?;
    if nodes.as_slice().iter().all(|node| ends_with(node, &digest)) {
        Ok(nodes)
    } else {
        Err("other results than those of one thread".into())
    }
}

// The same, of three blocks.
fn run_gated<G: Gate, R: Threads + Wait + Sync>(
    rt: &R,
    alloc: Global,
    arrivals: &[List<Tx>],
    gate: &G,
) -> Result<List<NodeResult>, Fail>
    requires nodes { (0 < length arrivals.now) × (length arrivals.now ≤ most_nodes) }
{
    let (app, blocks) = (accounts(alloc)?, three_blocks(alloc)?);
    run_blocks(rt, alloc, &app, &blocks, arrivals, gate)
}

#[test]
fn others_go_on_while_a_node_is_held(rt: HostRuntime) -> Result<(), Fail> {
    let nothing = [
        List::new(rt.alloc()),
        List::new(rt.alloc()),
        List::new(rt.alloc()),
    ];
    let gate = OneHeld::new(2, 3);
    let nodes = run_gated(&rt, rt.alloc(), &nothing, &gate)?;
    assert!(rt; gate.is_passed());
    assert_eq!(rt; nodes.len(), 3);
    Ok(())
}

// Whether the payment came by the actor after the executor, which claims it before its block.
fn is_claimed_ahead(journal: &[Entry]) -> bool {
    match arrival_of(journal, "p1") {
        Some((2, job)) => is_claimed_before(journal, job, 2),
        _ => false,
    }
}

#[test]
fn what_arrives_is_claimed_before_its_block(rt: HostRuntime) -> Result<(), Fail> {
    let arrivals = [calls(rt.alloc(), &PAYMENT)?];
    let gate = Holding::new(1, 2, 2);
    let nodes = run_gated(&rt, rt.alloc(), &arrivals, &gate)?;
    assert!(rt; gate.is_passed());
    assert!(rt;
        nodes
            .first()
            .is_some_and(|node| is_claimed_ahead(node.journal.as_slice()))
    );
    Ok(())
}
