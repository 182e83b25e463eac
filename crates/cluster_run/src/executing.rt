//! Actors beside the processor: executors, and the one that makes the arrivals.

ghost use Rattle.std.specs.Prelude.{◌≡◌, ◌≤◌, ◌++◌, ◌∷◌, List, None, []};
ghost use Rattle.cluster_run.specs.Arrivals.{IsSubsequence, arrived};
ghost use Rattle.cluster_run.specs.Standing.{Brings, Comes, Stands};
ghost use Rattle.proc_syntax.specs.declared.call.Tx.{Tx};
ghost use Rattle.turn_lock.specs.Passes.{HoldsNoTurn, IsIdle, IsSamePass, mine, pass_number};
ghost use Rattle.proc_syntax.specs.Limits.{most_executors};

use crate::crew::Crew;
use crate::gate::Gate;
use crate::running_jobs::run_one;
use node_model::Pick;
use node_shared::{NodePass, SharedNode};
use proc_syntax::Tx;
use rel_base::NoMemory;
use row_sets::Versions;
use std::sync::Wait;
use std::sync::atomic::{AtomicBool, Ordering};

// After so many arrivals the bell is rung: each ring wakes all idle executors.
const ARRIVALS_A_RING: u32 = 32;

// The first job that can be claimed is run, and who waits for its end is reported. Answers whether to look for another at once: there was
// one, and a long run ended meanwhile, this one or another. Other runs are in turns for most of their time, or read rows that move between
// processors, so that the processor gets on faster where others make few of them.
fn run_first<V: Versions, G: Gate, R: Wait>(
    rt: &R,
    node: &SharedNode<V>,
    crew: &Crew<'_, G>,
    pass: &mut NodePass<V>,
) -> Result<bool, NoMemory>
    requires stands { Stands node.now.lock pass.old None }
    ensures comes { Comes pass.old pass.new None }
{
    let before = crew.long_runs.heard();
    let ran = run_one(rt, node, crew, pass, Pick::Nth(0));
    if !matches!(ran, Ok(false)) {
        crew.ended.ring();
    }
    Ok(ran? && crew.long_runs.heard() != before)
}

/// Claims jobs and runs them, until the executor's flag is set or memory runs out. It holds none afterwards. Where no long run ended during a
/// job it waits for the bell before the next one, as where there is no job.
pub fn execute<V: Versions, G: Gate, R: Wait>(
    rt: &R,
    node: &SharedNode<V>,
    crew: &Crew<'_, G>,
    stopped: &AtomicBool,
    mut pass: NodePass<V>,
) -> NodePass<V>
    requires stands { Stands node.now.lock pass None }
    ensures comes { Comes pass result None }
{
    for _ in rt.forever() {
        let heard = crew.bell.heard();
        if stopped.load(Ordering::SeqCst) {
            return pass;
        }
        match run_first(rt, node, crew, &mut pass) {
            Ok(true) => {}
            Ok(false) => crew.bell.wait(rt, heard),
            Err(_) => return pass,
        }
    }
    unreachable!()
}

// One transaction arrives, unless the flag is set. Answers whether it was made to arrive.
fn bring<V: Versions, R: Wait>(
    rt: &R,
    node: &SharedNode<V>,
    stopped: &AtomicBool,
    pass: &mut NodePass<V>,
    tx: &Tx,
) -> bool
    requires idle { IsIdle node.now.lock pass.old }
    ensures same { IsSamePass pass.old pass.new }
    ensures no_turn { HoldsNoTurn pass.new }
    ensures in_order { (front : List Tx) → IsSubsequence (arrived (mine pass.old)) front → IsSubsequence (arrived (mine pass.new)) (front ++ tx.now ∷ []) }
{
    if stopped.load(Ordering::SeqCst) {
        return false;
    }
    node.arrive(rt, pass, tx).is_ok()
}

/// Makes the arrivals in order, until the flag is set or memory runs out. The bell is rung now and then, and at the end.
pub fn feed<V: Versions, G: Gate, R: Wait>(
    rt: &R,
    node: &SharedNode<V>,
    crew: &Crew<'_, G>,
    stopped: &AtomicBool,
    mut pass: NodePass<V>,
) -> NodePass<V>
    requires idle { IsIdle node.now.lock pass }
    requires new { arrived (mine pass) ≡ [] }
    ensures same { IsSamePass pass result }
    ensures no_turn { HoldsNoTurn result }
    ensures in_order { IsSubsequence (arrived (mine result)) crew.now.arrivals.now }
{
    let mut made: u32 = 0;
    for tx in crew.arrivals {
        if !bring(rt, node, stopped, &mut pass, tx) {
            crew.bell.ring();
            return pass;
        }
        made = (made + 1) % ARRIVALS_A_RING;
        if made == 0 {
            crew.bell.ring();
        }
    }
    crew.bell.ring();
    pass
}

/// What an actor beside the processor does: the one after the executors feeds the node, and they execute.
pub fn act<V: Versions, G: Gate, R: Wait>(
    rt: &R,
    node: &SharedNode<V>,
    crew: &Crew<'_, G>,
    stopped: &AtomicBool,
    pass: NodePass<V>,
) -> NodePass<V>
    requires stands { Stands node.now.lock pass None }
    requires few { crew.now.executors ≤ most_executors }
    ensures same { IsSamePass pass result }
    ensures no_turn { HoldsNoTurn result }
    ensures brings { Brings crew.now.executors crew.now.arrivals.now (pass_number result) (mine result) }
{
    if crew.feeds(pass.number()) {
        feed(rt, node, crew, stopped, pass)
    } else {
        execute(rt, node, crew, stopped, pass)
    }
}
