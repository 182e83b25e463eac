//! An insert, turn by turn, by the passes of a node whose store is a plain list.

ghost use Rattle.std.specs.Prelude.{◌≡◌};
ghost use Rattle.cluster_run.specs.Standing.{HasNone};
ghost use Rattle.turn_lock.specs.Passes.{HoldsNoTurn, IsPassOf, IsSamePass, pass_number};

use crate::calls::{accounts, block, calls};
use crate::looking::look_ahead;
use crate::opening::open_node;
use cluster_run::forking::split_off;
use cluster_run::running_jobs::{run_one, take_job};
use cluster_run::{Crew, NoGate};
use node_model::{Entry, Event, Pick};
use node_shared::{NodePass, SharedNode};
use proc_check::Checked;
use proc_syntax::{Block, Tx};
use rel_base::NoMemory;
use std::alloc::Global;
use std::sync::{Arc, Wait};
use std::test::Fail;
use version_store::PlainVersions;

const INSERT: [&[u8]; 1] = [b"tx a1 0 add 1 \"ann\" 50"];

// What an entry says: who did what, with the number of its job, its block or its position.
fn said(entry: &Entry) -> (u32, &'static str, u64) {
    match &entry.event {
        Event::Arrive { job, .. } => (entry.actor, "arrive", *job),
        Event::Claim { job } => (entry.actor, "claim", *job),
        Event::Read { job } => (entry.actor, "read", *job),
        Event::Finish { job } => (entry.actor, "finish", *job),
        Event::Release { job } => (entry.actor, "release", *job),
        Event::Deliver { block } => (entry.actor, "deliver", block.number),
        Event::Commit { pos } => (entry.actor, "commit", *pos as u64),
        Event::Seal { number } => (entry.actor, "seal", *number),
    }
}

// Whether a journal is that of an insert of one pass that another one runs.
fn is_of_two(journal: &[Entry]) -> bool {
    let wanted = [
        (0, "deliver", 1),
        (1, "claim", 1),
        (1, "read", 1),
        (1, "finish", 1),
        (0, "commit", 1),
        (0, "seal", 1),
    ];
    journal.iter().map(said).eq(wanted)
}

// An insert step by step: one pass delivers, commits and seals, the other runs it. Answers whether its outcome is reported.
fn step_by_step<R: Wait>(
    rt: &R,
    alloc: Global,
    node: &SharedNode<PlainVersions>,
    pass: &mut NodePass<PlainVersions>,
    other: &mut NodePass<PlainVersions>,
    block: &Block,
) -> Result<bool, NoMemory>
    requires locks { IsPassOf node.now.lock pass.old × IsPassOf node.now.lock other.old }
    requires no_turn { HoldsNoTurn pass.old × HoldsNoTurn other.old }
    requires processor { pass_number pass.old ≡ 0 }
    requires hand { HasNone other.old }
    ensures same { IsSamePass pass.old pass.new × IsSamePass other.old other.new }
    ensures no_turn { HoldsNoTurn pass.new × HoldsNoTurn other.new }
{
    let gate = NoGate;
    let crew = Crew::new(1, 1, &[], &[], &gate);
    node.deliver(rt, pass, block)?;
    run_one(rt, node, &crew, other, Pick::Due)?;
    node.commit(rt, pass)?;
    node.seal(rt, pass)?;
    match block.txs.first() {
        None => Ok(false),
        Some(tx) => Ok(node.outcome(rt, alloc, pass, &tx.id)?.is_some()),
    }
}

// Whether the outcome of an insert by two passes is reported, and its journal is as it should be.
fn insert_by_two<R: Wait>(
    rt: &R,
    alloc: Global,
    app: &Arc<Checked>,
    block: &Block,
) -> Result<bool, Fail> {
    let (node, mut pass) = open_node::<PlainVersions>(alloc, app)?;
    let mut other = split_off(&node, &mut pass);
    let told = step_by_step(rt, alloc, &node, &mut pass, &mut other, block);
    node.join(&mut pass, other);
    let made = node.close(pass).close()?;
    Ok(matches!(told, Ok(true)) && is_of_two(made.journal.as_slice()))
}

// The same, of a block of one insert.
fn insert<R: Wait>(rt: &R, alloc: Global) -> Result<bool, Fail> {
    let app = accounts(alloc)?;
    let block = block(1, calls(alloc, &INSERT)?)?;
    insert_by_two(rt, alloc, &app, &block)
}

#[test]
fn an_insert_by_two_passes(rt: HostRuntime) -> Result<(), Fail> {
    let is_told = insert(&rt, rt.alloc())?;
    assert!(rt; is_told);
    Ok(())
}

// Whether the read of a call that one pass brings is reported to another, which takes its job.
fn look_at_read<R: Wait>(
    rt: &R,
    node: &SharedNode<PlainVersions>,
    bringer: &mut NodePass<PlainVersions>,
    other: &mut NodePass<PlainVersions>,
    call: &Tx,
) -> Result<bool, Fail>
    requires locks { IsPassOf node.now.lock bringer.old × IsPassOf node.now.lock other.old }
    requires no_turn { HoldsNoTurn bringer.old × HoldsNoTurn other.old }
    requires hand { HasNone other.old }
{
    node.arrive(rt, bringer, call)?;
    let Ok(Some(mut work)) = take_job(rt, node, other, Pick::Nth(0)) else {
        return Err("no job waits".into());
    };
    let looked = look_ahead(rt, node, other, 0, &mut work);
    drop(work);
    Ok(looked?.is_some())
}

// The same, of a node to which nothing has happened.
fn look_by_two<R: Wait>(
    rt: &R,
    alloc: Global,
    app: &Arc<Checked>,
    call: &Tx,
) -> Result<bool, Fail> {
    let (node, mut pass) = open_node::<PlainVersions>(alloc, app)?;
    let (mut bringer, mut other) = (split_off(&node, &mut pass), split_off(&node, &mut pass));
    look_at_read(rt, &node, &mut bringer, &mut other, call)
}

// The same, of an insert.
fn look<R: Wait>(rt: &R, alloc: Global) -> Result<bool, Fail> {
    let app = accounts(alloc)?;
    let inserts = calls(alloc, &INSERT)?;
    match inserts.first() {
        None => Ok(false),
        Some(call) => look_by_two(rt, alloc, &app, call),
    }
}

#[test]
fn a_look_at_what_an_insert_reads(rt: HostRuntime) -> Result<(), Fail> {
    let is_told = look(&rt, rt.alloc())?;
    assert!(rt; is_told);
    Ok(())
}
