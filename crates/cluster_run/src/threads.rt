//! Actors in threads of their own, beside the processor on the caller's.

ghost use Rattle.std.specs.Prelude.{◌≡◌, ◌+◌, ◌++◌, ◌≤◌, All, IfOk, None, [], length, vec_capacity, vec_len};
ghost use Rattle.cluster_run.specs.Standing.{AllBring, Brings, HasProcessed, KeepsBlocks, Stands, delivered_by, in_work};
ghost use Rattle.serial_laws.specs.Chained.{AreNumbered};
ghost use Rattle.turn_lock.specs.Passes.{IsIdle, joined, left, made, mine, pass_base, pass_number};
ghost use Rattle.proc_syntax.specs.Limits.{most_executors};

use crate::bell::Bell;
use crate::crew::Crew;
use crate::executing::act;
use crate::forking::{split_off, take_back};
use crate::gate::Gate;
use crate::processing::process_all;
use node_shared::{NodePass, SharedNode};
use proc_syntax::Tx;
use rel_base::NoMemory;
use row_sets::Versions;
use std::alloc::Global;
use std::snapshot::Snapshot;
use std::sync::Wait;
use std::sync::atomic::{AtomicBool, Ordering};
use std::thread;
use std::thread::{Promise, PromisedHandle, Threads};

/// The promise of a thread that its result is a pass of this node, which has no turn, and has brought no more than its actor may.
#[derive(Drop)]
pub struct PassOf<'a, V: Versions> {
    node: Snapshot<SharedNode<V>>,
    executors: u32,
    arrivals: &'a [Tx],
}

impl<'a, V: Versions> PassOf<'a, V> {
    /// The promise for an actor of this node.
    pub fn new<G: Gate>(node: &SharedNode<V>, crew: &Crew<'a, G>) -> PassOf<'a, V>
        ensures node { result.node.value ≡ node.now }
        ensures executors { result.executors ≡ crew.now.executors }
        ensures arrivals { result.arrivals.now ≡ crew.now.arrivals.now }
    {
        PassOf {
            node: Snapshot::of(node),
            executors: crew.executors,
            arrivals: crew.arrivals,
        }
    }
}

impl<'a, V: Versions> Promise<NodePass<V>> for PassOf<'a, V> {
    ghost use Rattle.cluster_run.specs.Standing.{Brings};
    ghost use Rattle.turn_lock.specs.Passes.{IsIdle, mine, pass_number};

    ghost kept_by = { λ promise pass. IsIdle promise.node.value.lock pass × Brings promise.executors promise.arrivals.now (pass_number pass) (mine pass) };
}

// A flag for each actor, not set.
fn flags_for(alloc: Global, actors: u32) -> Result<Vec<AtomicBool>, NoMemory>
    ensures count { IfOk result (λ flags. vec_len flags ≡ actors) }
{
    let mut flags = Vec::new(alloc);
    for _ in 0..actors {
        flags.push(AtomicBool::new(false))?;
    }
    Ok(flags)
}

// Tells each actor to stop, and wakes those that sleep.
fn stop_all(stops: &[AtomicBool], bell: &Bell) {
    for stopped in stops {
        stopped.store(true, Ordering::SeqCst);
    }
    bell.ring();
}

// The pass of each thread is taken back, once the thread has ended.
fn join_all<V: Versions, G: Gate, R: Threads + Wait>(
    rt: &R,
    node: &SharedNode<V>,
    crew: &Crew<'_, G>,
    pass: &mut NodePass<V>,
    children: Vec<PromisedHandle<NodePass<V>, PassOf<'_, V>>>,
)
    requires stands { Stands node.now.lock pass.old None }
    requires processor { pass_number pass.old ≡ 0 }
    requires left { left pass.old ≡ vec_len children }
    requires promised { All (λ child. (child.promise.node.value ≡ node.now) × (child.promise.executors ≡ crew.now.executors) × (child.promise.arrivals.now ≡ crew.now.arrivals.now)) children.items }
    requires brings { AllBring crew.now.executors crew.now.arrivals.now pass.old }
    ensures keeps { KeepsBlocks pass.old pass.new }
    ensures left { left pass.new ≡ 0 }
    ensures brings { AllBring crew.now.executors crew.now.arrivals.now pass.new }
{
    for child in children {
        let back = child.join(rt);
        take_back(rt, node, pass, back);
    }
}

// The processor processes the blocks while the others run; then these are told to stop and joined.
fn process_beside<V: Versions, G: Gate, R: Threads + Wait>(
    rt: &R,
    node: &SharedNode<V>,
    crew: &Crew<'_, G>,
    mut pass: NodePass<V>,
    stops: &[AtomicBool],
    children: Vec<PromisedHandle<NodePass<V>, PassOf<'_, V>>>,
) -> Result<NodePass<V>, NoMemory>
    requires stands { Stands node.now.lock pass None }
    requires processor { pass_number pass ≡ 0 }
    requires rests { in_work pass ≡ [] }
    requires numbered { AreNumbered (length (delivered_by pass) + 1) crew.now.blocks.now }
    requires left { left pass ≡ vec_len children }
    requires promised { All (λ child. (child.promise.node.value ≡ node.now) × (child.promise.executors ≡ crew.now.executors) × (child.promise.arrivals.now ≡ crew.now.arrivals.now)) children.items }
    requires brings { AllBring crew.now.executors crew.now.arrivals.now pass }
    ensures processed { IfOk result (HasProcessed node.now.lock (pass_base pass) (delivered_by pass ++ crew.now.blocks.now)) }
    ensures brings { IfOk result (AllBring crew.now.executors crew.now.arrivals.now) }
{
    let processed = process_all(rt, node, crew, &mut pass, crew.blocks);
    stop_all(stops, &crew.bell);
    join_all(rt, node, crew, &mut pass, children);
    processed?;
    Ok(pass)
}

/// Processes the blocks with a pass that is alone, while executors run jobs and what arrives is made to arrive, in as many threads as can be
/// started. A thread that can't be started is absent: its closure comes back and is called with its flag set, and its pass is taken back.
pub fn run_crew<V: Versions + Send, G: Gate, R: Threads + Wait + Sync>(
    rt: &R,
    alloc: Global,
    node: &SharedNode<V>,
    crew: &Crew<'_, G>,
    mut pass: NodePass<V>,
) -> Result<NodePass<V>, NoMemory>
    requires stands { Stands node.now.lock pass None }
    requires processor { (pass_number pass ≡ 0) × (made pass ≡ 0) × (left pass ≡ 0) }
    requires rests { in_work pass ≡ [] }
    requires numbered { AreNumbered (length (delivered_by pass) + 1) crew.now.blocks.now }
    requires few { crew.now.executors ≤ most_executors }
    requires alone { joined pass ≡ [] }
    ensures processed { IfOk result (HasProcessed node.now.lock (pass_base pass) (delivered_by pass ++ crew.now.blocks.now)) }
    ensures brings { IfOk result (AllBring crew.now.executors crew.now.arrivals.now) }
{
    let actors = crew.beside();
    let flags = flags_for(alloc, actors)?;
    let mut children: Vec<PromisedHandle<NodePass<V>, PassOf<'_, V>>> = Vec::new(alloc);
    children.reserve(actors as usize)?;
    let stops = flags.as_slice();
    thread::scope(
        thread::scope_env(),
        rt,
        move |scope| -> Result<NodePass<V>, NoMemory>
            requires stands { Stands node.now.lock pass None }
            requires processor { (pass_number pass ≡ 0) × (made pass ≡ 0) × (left pass ≡ 0) }
            requires rests { in_work pass ≡ [] }
            requires numbered { AreNumbered (length (delivered_by pass) + 1) crew.now.blocks.now }
            requires few { (crew.now.executors ≤ most_executors) × (actors ≤ most_executors + 1) × (length stops.now ≡ actors) }
            requires alone { joined pass ≡ [] }
            requires room { (children.items ≡ []) × (actors ≤ vec_capacity children) }
            ensures processed { IfOk result (HasProcessed node.entry.now.lock (pass_base pass) (delivered_by pass ++ crew.entry.now.blocks.now)) }
            ensures brings { IfOk result (AllBring crew.entry.now.executors crew.entry.now.arrivals.now) }
        {
            for i in 0..actors {
                let other = split_off(node, &mut pass);
                let stopped = &stops[i as usize];
                let start = scope.spawn_with(
                    PassOf::new(node, crew),
                    move || -> NodePass<V>
                        requires { Stands node.now.lock other None × (crew.now.executors ≤ most_executors) }
                        ensures { IsIdle node.entry.now.lock result × Brings crew.entry.now.executors crew.entry.now.arrivals.now (pass_number result) (mine result) }
                    { act(rt, node, crew, stopped, other) },
                );
                match start {
                    Ok(child) => children.push_reserved(child),
                    Err(refused) => {
                        stopped.store(true, Ordering::SeqCst);
                        let back = (refused.value)();
                        take_back(rt, node, &mut pass, back);
                    }
                }
            }
            process_beside(rt, node, crew, pass, stops, children)
        },
    )
}
