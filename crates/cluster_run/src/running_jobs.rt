//! A job is run from its claim to its end.

ghost use Rattle.std.specs.Prelude.{◌≡◌, IfErr, IfOk, None, OnOk, Some, true};
ghost use Rattle.cluster_run.specs.Standing.{Comes, IsOver, Leaves, Runs, SameBlocks, Stands, Takes, left_of};
ghost use Rattle.node_core.specs.InHand.{InHand, IsReady, WantsRead};
ghost use Rattle.turn_lock.specs.Passes.{pass_number};

use crate::crew::Crew;
use crate::gate::{Gate, Point};
use node_core::{Finished, HeldJob, Next};
use node_model::Pick;
use node_shared::{NodePass, SharedNode};
use rel_base::NoMemory;
use row_sets::Versions;
use std::sync::Wait;

/// A pass that holds no job takes one, if there is one to take.
pub fn take_job<V: Versions, R: Wait>(
    rt: &R,
    node: &SharedNode<V>,
    pass: &mut NodePass<V>,
    pick: Pick,
) -> Result<Option<HeldJob>, NoMemory>
    requires stands { Stands node.now.lock pass.old None }
    ensures comes { Comes pass.old pass.new (left_of result) }
    ensures blocks { pass_number pass.old ≡ 0 → SameBlocks pass.old pass.new }
    ensures takes { IfOk result (Takes pass.old pass.new pick) }
{
    node.claim(rt, pass, pick)
}

/// A held job is given up. One whose id is settled is dropped.
pub fn give_up<V: Versions, R: Wait>(
    rt: &R,
    node: &SharedNode<V>,
    pass: &mut NodePass<V>,
    work: HeldJob,
)
    requires stands { Stands node.now.lock pass.old (Some work) }
    ensures comes { Comes pass.old pass.new None }
    ensures blocks { pass_number pass.old ≡ 0 → SameBlocks pass.old pass.new }
    ensures over { work.gone ≡ true → IsOver pass.new work.job }
{
    node.release(rt, pass, work);
}

// A held job makes the read that it wants.
fn make_read<V: Versions, R: Wait>(
    rt: &R,
    node: &SharedNode<V>,
    pass: &mut NodePass<V>,
    mut work: HeldJob,
) -> Result<Option<HeldJob>, NoMemory>
    requires stands { Stands node.now.lock pass.old (Some work) }
    requires wants { WantsRead work }
    ensures comes { Comes pass.old pass.new (left_of result) }
    ensures blocks { pass_number pass.old ≡ 0 → SameBlocks pass.old pass.new }
    ensures leaves { IfOk result (Leaves pass.new work) }
{
    if node.read(rt, pass, &mut work).is_err() {
        give_up(rt, node, pass, work);
        return Err(NoMemory);
    }
    Ok(Some(work))
}

// A job whose end was noted is over; one that came back is given up, and memory ran out.
fn settle<V: Versions, R: Wait>(
    rt: &R,
    node: &SharedNode<V>,
    pass: &mut NodePass<V>,
    ended: Result<Finished, (HeldJob, NoMemory)>,
) -> Result<Option<HeldJob>, NoMemory>
    requires over { OnOk ended (Stands node.now.lock pass.old None) }
    requires back { IfErr ended (λ refused. Stands node.now.lock pass.old (Some refused.0)) }
    ensures comes { Comes pass.old pass.new (left_of result) }
    ensures blocks { pass_number pass.old ≡ 0 → SameBlocks pass.old pass.new }
    ensures leaves { (work : InHand) → OnOk ended (IsOver pass.old work.job) → IfOk result (Leaves pass.new work) }
{
    match ended {
        Ok(_) => Ok(None),
        Err((work, refused)) => {
            give_up(rt, node, pass, work);
            Err(refused)
        }
    }
}

// A held job that is ready is finished.
fn end_job<V: Versions, R: Wait>(
    rt: &R,
    node: &SharedNode<V>,
    pass: &mut NodePass<V>,
    work: HeldJob,
) -> Result<Option<HeldJob>, NoMemory>
    requires stands { Stands node.now.lock pass.old (Some work) }
    requires ready { IsReady work }
    ensures comes { Comes pass.old pass.new (left_of result) }
    ensures blocks { pass_number pass.old ≡ 0 → SameBlocks pass.old pass.new }
    ensures leaves { IfOk result (Leaves pass.new work) }
{
    let ended = node.finish(rt, pass, work);
    settle(rt, node, pass, ended)
}

/// A held job runs to its next read and makes it, or to its end. What is left of it goes on; nothing is left of one that is done or dropped.
pub fn step_job<V: Versions, G: Gate, R: Wait>(
    rt: &R,
    node: &SharedNode<V>,
    crew: &Crew<'_, G>,
    pass: &mut NodePass<V>,
    mut work: HeldJob,
) -> Result<Option<HeldJob>, NoMemory>
    requires stands { Stands node.now.lock pass.old (Some work) }
    ensures comes { Comes pass.old pass.new (left_of result) }
    ensures blocks { pass_number pass.old ≡ 0 → SameBlocks pass.old pass.new }
    ensures leaves { IfOk result (Leaves pass.new work) }
{
    match work.advance() {
        Ok(Next::Wants) => make_read(rt, node, pass, work),
        Ok(Next::Ready) => {
            crew.note_run(&work);
            crew.come_to(rt, pass.number(), &work, Point::Ending);
            end_job(rt, node, pass, work)
        }
        Ok(Next::Gone) => {
            give_up(rt, node, pass, work);
            Ok(None)
        }
        Err(refused) => {
            give_up(rt, node, pass, work);
            Err(refused)
        }
    }
}

/// Runs a held job of a pass to its end, read by read, each in a turn of its own. It is finished where it comes to its end, and given up where
/// its id is settled or memory runs out, so that the pass holds no job afterwards.
pub fn run_job<V: Versions, G: Gate, R: Wait>(
    rt: &R,
    node: &SharedNode<V>,
    crew: &Crew<'_, G>,
    pass: &mut NodePass<V>,
    mut work: HeldJob,
) -> Result<(), NoMemory>
    requires stands { Stands node.now.lock pass.old (Some work) }
    ensures comes { Comes pass.old pass.new None }
    ensures blocks { pass_number pass.old ≡ 0 → SameBlocks pass.old pass.new }
    ensures over { OnOk result (IsOver pass.new work.job) }
{
    crew.come_to(rt, pass.number(), &work, Point::Claimed);
    let mut made: u32 = 0;
    for _ in rt.forever() {
        match step_job(rt, node, crew, pass, work)? {
            None => return Ok(()),
            Some(left) => work = left,
        }
        made = made.saturating_add(1);
        crew.come_to(rt, pass.number(), &work, Point::Made(made));
    }
    unreachable!()
}

/// A pass that holds no job takes one, if there is one to take, and runs it to its end. Answers whether there was one.
pub fn run_one<V: Versions, G: Gate, R: Wait>(
    rt: &R,
    node: &SharedNode<V>,
    crew: &Crew<'_, G>,
    pass: &mut NodePass<V>,
    pick: Pick,
) -> Result<bool, NoMemory>
    requires stands { Stands node.now.lock pass.old None }
    ensures comes { Comes pass.old pass.new None }
    ensures blocks { pass_number pass.old ≡ 0 → SameBlocks pass.old pass.new }
    ensures runs { IfOk result (Runs pass.old pass.new pick) }
{
    match take_job(rt, node, pass, pick) {
        Ok(None) => Ok(false),
        Ok(Some(taken)) => {
            run_job(rt, node, crew, pass, taken)?;
            Ok(true)
        }
        Err(refused) => Err(refused),
    }
}
