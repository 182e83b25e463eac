//! The transactions of the block in work are decided.

ghost use Rattle.std.specs.Prelude.{◌≡◌, IfOk, None, OnOk};
ghost use Rattle.cluster_run.specs.Standing.{AllDecided, Comes, HasNoJob, Looks, SameBlocks, Says, Stands};
ghost use Rattle.node_model.specs.declared.journal.Pick.TheVariants.{Due};
ghost use Rattle.turn_lock.specs.Passes.{pass_number};

use crate::crew::Crew;
use crate::gate::Gate;
use crate::running_jobs::run_one;
use node_core::Decided;
use node_model::Pick;
use node_shared::{NodePass, SharedNode};
use rel_base::NoMemory;
use row_sets::Versions;
use std::sync::Wait;

// The first undecided transaction of the block in work is decided, if it is ready.
fn commit_next<V: Versions, R: Wait>(
    rt: &R,
    node: &SharedNode<V>,
    pass: &mut NodePass<V>,
) -> Result<Decided, NoMemory>
    requires stands { Stands node.now.lock pass.old None }
    requires processor { pass_number pass.old ≡ 0 }
    ensures comes { Comes pass.old pass.new None }
    ensures blocks { SameBlocks pass.old pass.new }
    ensures says { IfOk result (λ decided. Says decided pass.old pass.new) }
{
    node.commit(rt, pass)
}

// While the job of the first undecided transaction waits, the processor runs it and decides that transaction.
fn run_due<V: Versions, G: Gate, R: Wait>(
    rt: &R,
    node: &SharedNode<V>,
    crew: &Crew<'_, G>,
    pass: &mut NodePass<V>,
) -> Result<(), NoMemory>
    requires stands { Stands node.now.lock pass.old None }
    requires processor { pass_number pass.old ≡ 0 }
    ensures comes { Comes pass.old pass.new None }
    ensures blocks { SameBlocks pass.old pass.new }
    ensures none { OnOk result (HasNoJob pass.new Due) }
{
    for _ in rt.forever() {
        if !run_one(rt, node, crew, pass, Pick::Due)? {
            return Ok(());
        }
        commit_next(rt, node, pass)?;
    }
    unreachable!()
}

// One commit, and where it waits, the run of what it waits for. Answers whether nothing is undecided.
fn decide_next<V: Versions, G: Gate, R: Wait>(
    rt: &R,
    node: &SharedNode<V>,
    crew: &Crew<'_, G>,
    pass: &mut NodePass<V>,
) -> Result<bool, NoMemory>
    requires stands { Stands node.now.lock pass.old None }
    requires processor { pass_number pass.old ≡ 0 }
    ensures comes { Comes pass.old pass.new None }
    ensures blocks { SameBlocks pass.old pass.new }
    ensures looks { IfOk result (λ all. Looks all pass.old pass.new) }
{
    let heard = crew.ended.heard();
    match commit_next(rt, node, pass) {
        Ok(Decided::Outcome { .. }) => Ok(false),
        Ok(Decided::NotReady { holder: None, .. }) => {
            run_due(rt, node, crew, pass)?;
            Ok(false)
        }
        Ok(
            Decided::NotReady {
                holder: Some(_),
                ..
            },
        ) => {
            if !run_one(rt, node, crew, pass, Pick::Nth(0))? {
                crew.ended.wait(rt, heard);
            }
            Ok(false)
        }
        Ok(Decided::AllDecided { .. }) | Ok(Decided::NoBlock { .. }) => Ok(true),
        Err(refused) => Err(refused),
    }
}

/// Decides the transactions of the block in work, in order, until none is undecided. A transaction whose job waits is run by the
/// processor itself; where another actor holds the job, the processor waits until a job is held no more, and looks again.
pub fn decide_all<V: Versions, G: Gate, R: Wait>(
    rt: &R,
    node: &SharedNode<V>,
    crew: &Crew<'_, G>,
    pass: &mut NodePass<V>,
) -> Result<(), NoMemory>
    requires stands { Stands node.now.lock pass.old None }
    requires processor { pass_number pass.old ≡ 0 }
    ensures comes { Comes pass.old pass.new None }
    ensures blocks { SameBlocks pass.old pass.new }
    ensures all { OnOk result (AllDecided pass.new) }
{
    for _ in rt.forever() {
        if decide_next(rt, node, crew, pass)? {
            return Ok(());
        }
    }
    unreachable!()
}
