//! One step: the next statement of a block, or the next row of a `for`.

ghost use Rattle.std.specs.Prelude.{◌≡◌, ◌<◌, ◌≤◌, ◌+◌, ◌*◌, ◌^◌, [], ◌∷◌, ◌++◌, List, Option, ℕ, Some, Ok, cond, IfOk, OnErr, true, false, slice_get, length, vec_len, vec_capacity};
ghost use Rattle.rel_base.specs.Tables.{Tables};
ghost use Rattle.rel_base.specs.declared.schema.TableDef.{TableDef as Def};
ghost use Rattle.proc_code.specs.declared.tree.Action.{Action as Act};
ghost use Rattle.proc_run.specs.declared.path.Spot.TheVariants as spot;
ghost use Rattle.proc_run.specs.declared.path.Branch.TheVariants.{First, Second};
ghost use Rattle.proc_run.specs.declared.state.Phase.TheVariants as phase;
ghost use Rattle.proc_run.specs.Path.{block_of, frames_of, part_of};
ghost use Rattle.proc_run.specs.Planned.{PlanFits};
ghost use Rattle.proc_run.specs.Remains.{state, goes_past, run_frames, remains, has_rows, IsEntered, PhaseFits};
ghost use Rattle.proc_syntax.specs.Limits.{most_steps};

use crate::path::{Branch, Cursor, Holder, Program, Spot, part};
use crate::plan::{Plan, plan_action};
use crate::state::{Phase, Run};
use crate::turn::{push_block, push_rest, push_rows};
use crate::variables::{hold, put};
use proc_code::Action;
use proc_eval::Halt;
use proc_syntax::run::MOST_RUN_STEPS;
use proc_syntax::{Binding, Fault, Stop};
use rel_base::{List, NoMemory, Row, Twin};
use std::alloc::Global;

/// The branch of a statement whose first block is next, or whose second.
fn branch_of(first: bool) -> Branch
    ensures { result ≡ cond first First Second }
{
    if first { Branch::First } else { Branch::Second }
}

/// Puts a block of the statement of a number in a block at the end of a path, unless there is nothing in it. There is room for it.
fn enter_block(spots: &mut Vec<Spot>, block: &[Action], at: usize, branch: Branch)
    requires { vec_len spots.old < vec_capacity spots.old }
    ensures runs { (tables : List Def) (columns : List (List (Option ℕ))) (S : Tables) (root : List Act) → block.now ≡ block_of root spots.old.items → IsEntered tables columns S root at branch spots.old.items spots.new.items }
    ensures len { vec_len spots.new ≤ vec_len spots.old + 1 }
{
    if !part(block, at, branch).is_empty() {
        push_block(spots, at, branch, 0);
    }
}

/// Counts the step of the next statement of a block, and does what it comes to, once the rest of the block is on the path. There is
/// room for two spots.
fn perform(
    spots: &mut Vec<Spot>,
    run: &mut Run,
    block: &[Action],
    cursor: Cursor,
    plan: Plan,
) -> Phase
    requires room { vec_len spots.old + 2 ≤ vec_capacity spots.old }
    requires steps { run.old.steps < most_steps }
    requires next { cursor.next + 1 < 2 ^ 64 }
    ensures remains { (tables : List Def) (columns : List (List (Option ℕ))) (S : Tables) (root : List Act) → block.now ≡ part_of (block_of root spots.old.items) cursor.at cursor.branch → remains tables columns S root result spots.new.items (state run.new)
        ≡ goes_past tables columns S root spots.old.items cursor.at cursor.branch cursor.next plan (state run.old) }
    ensures steps { run.new.steps ≡ run.old.steps + 1 }
    ensures own { run.new.own ≡ run.old.own }
    ensures made { run.new.made ≡ run.old.made }
    ensures len { vec_len spots.new ≤ vec_len spots.old + 2 }
    ensures fits { (tables : List Def) → PlanFits tables plan → PhaseFits tables result }
    ensures fresh { has_rows result ≡ false }
{
    let Cursor { at, branch, next } = cursor;
    run.steps += 1;
    let after = Cursor {
        at,
        branch,
        next: next + 1,
    };
    push_rest(spots, after, block.len());
    match plan {
        Plan::Set { slot, value } => {
            put(&mut run.environment.slots, slot, Binding::Plain(value));
            Phase::Running
        }
        Plan::Enter { first } => {
            enter_block(spots, block, next, branch_of(first));
            Phase::Running
        }
        Plan::Ask { asked } => Phase::Ask { at: next, asked },
    }
}

/// Goes on with a block, which was the last spot of the path and is given: with its next statement, where there is one. Where memory
/// is wanting, all is as before, with the block as the last spot.
pub fn step_block(
    alloc: Global,
    program: &Program<'_>,
    spots: &mut Vec<Spot>,
    run: &mut Run,
    block: &[Action],
    cursor: Cursor,
) -> Result<Phase, NoMemory>
    requires here { block.now ≡ part_of (block_of program.now.root.now spots.old.items) cursor.at cursor.branch }
    requires room { vec_len spots.old + 2 ≤ vec_capacity spots.old }
    requires steps { run.old.steps ≤ most_steps }
    ensures remains { IfOk result (λ phase. (S : Tables) → remains program.now.tables.now program.now.columns.now S program.now.root.now phase spots.new.items (state run.new)
        ≡ run_frames program.now.tables.now program.now.columns.now S (frames_of program.now.root.now (spots.old.items ++ spot.Block cursor.at cursor.branch cursor.next ∷ [])) (state run.old)) }
    ensures fits { IfOk result (λ phase. PhaseFits program.now.tables.now phase) }
    ensures fresh { IfOk result (λ phase. has_rows phase ≡ false) }
    ensures own { run.new.own ≡ run.old.own }
    ensures made { run.new.made ≡ run.old.made }
    ensures steps { run.new.steps ≤ most_steps }
    ensures smaller { result ≡ Ok phase.Running → vec_len spots.new + 2 * run.old.steps < vec_len spots.old + 1 + 2 * run.new.steps }
    ensures err { OnErr result ((spots.new.items ≡ spots.old.items ++ spot.Block cursor.at cursor.branch cursor.next ∷ []) × (run.new ≡ run.old)) }
{
    let Cursor { at, branch, next } = cursor;
    if next >= block.len() {
        return Ok(Phase::Running);
    }
    if run.steps >= MOST_RUN_STEPS {
        return Ok(Phase::Stopped(Stop::Fault(Fault::Steps)));
    }
    let environment = &run.environment;
    match plan_action(
        alloc,
        program.tables,
        program.columns,
        environment,
        &block[next],
    ) {
        Err(Halt::NoMemory) => {
            push_block(spots, at, branch, next);
            Err(NoMemory)
        }
        Err(Halt::Stop(why)) => {
            run.steps += 1;
            Ok(Phase::Stopped(why))
        }
        Ok(plan) => Ok(perform(spots, run, block, cursor, plan)),
    }
}

/// A copy of the row of a number.
pub fn row_at(alloc: Global, rows: &[Row], next: usize) -> Result<Row, NoMemory>
    requires { next < length rows.now }
    ensures { IfOk result (λ row. slice_get rows.now next ≡ Some row) }
{
    rows[next].copy(alloc)
}

/// Goes on with the rows of a `for`, which were the last spot of the path: with the next row, where there is one. Where memory is
/// wanting, all is as before, with the rows as the last spot.
pub fn step_rows(
    alloc: Global,
    spots: &mut Vec<Spot>,
    run: &mut Run,
    holder: Holder,
    rows: List<Row>,
    next: usize,
) -> Result<Phase, NoMemory>
    requires room { vec_len spots.old + 2 ≤ vec_capacity spots.old }
    requires steps { run.old.steps ≤ most_steps }
    ensures remains { IfOk result (λ phase. (tables : List Def) (columns : List (List (Option ℕ))) (S : Tables) (root : List Act) → remains tables columns S root phase spots.new.items (state run.new)
        ≡ run_frames tables columns S (frames_of root (spots.old.items ++ spot.Loop holder.at holder.slot holder.table rows next ∷ [])) (state run.old)) }
    ensures fits { IfOk result (λ phase. (tables : List Def) → PhaseFits tables phase) }
    ensures fresh { IfOk result (λ phase. has_rows phase ≡ false) }
    ensures own { run.new.own ≡ run.old.own }
    ensures made { run.new.made ≡ run.old.made }
    ensures steps { run.new.steps ≤ most_steps }
    ensures smaller { result ≡ Ok phase.Running → vec_len spots.new + 2 * run.old.steps < vec_len spots.old + 1 + 2 * run.new.steps }
    ensures err { OnErr result ((spots.new.items ≡ spots.old.items ++ spot.Loop holder.at holder.slot holder.table rows next ∷ []) × (run.new ≡ run.old)) }
{
    if next >= rows.len() {
        return Ok(Phase::Running);
    }
    if run.steps >= MOST_RUN_STEPS {
        return Ok(Phase::Stopped(Stop::Fault(Fault::Steps)));
    }
    match row_at(alloc, rows.as_slice(), next) {
        Err(error) => {
            push_rows(spots, holder, rows, next);
            Err(error)
        }
        Ok(row) => {
            run.steps += 1;
            hold(&mut run.environment.slots, holder, row);
            push_rows(spots, holder, rows, next + 1);
            push_block(spots, holder.at, Branch::First, 0);
            Ok(Phase::Running)
        }
    }
}
