//! The steps of a run, from one read to the next.

ghost use Rattle.std.specs.Prelude.{◌≡◌, ◌<◌, ◌≤◌, ◌+◌, ◌*◌, ◌^◌, [], ◌∷◌, ◌++◌, List, Option, ℕ, Some, Ok, cond, IfOk, OnErr, true, false, nat_lt, slice_get, length, vec_len, vec_capacity};
ghost use Rattle.rel_base.specs.Tables.{Tables};
ghost use Rattle.rel_base.specs.declared.schema.TableDef.{TableDef as Def};
ghost use Rattle.proc_code.specs.declared.tree.Action.{Action as Act};
ghost use Rattle.proc_run.specs.declared.path.Spot.TheVariants as spot;
ghost use Rattle.proc_run.specs.declared.path.Branch.TheVariants.{First, Second};
ghost use Rattle.proc_run.specs.declared.state.Phase.TheVariants as phase;
ghost use Rattle.proc_run.specs.Path.{block_of, frames_of, part_of};
ghost use Rattle.proc_run.specs.Planned.{PlanFits};
ghost use Rattle.proc_run.specs.Remains.{state, goes_past, run_frames, remains, waits, has_rows, IsSamePath, PhaseFits};
ghost use Rattle.proc_syntax.specs.Limits.{most_steps};

use crate::assigning::assign_all;
use crate::path::{Branch, Cursor, Holder, Program, RowsLeft, Spot, block_at, part};
use crate::state::{Phase, Run};
use crate::stepping::{step_block, step_rows};
use crate::visiting::{Reached, Visit, visit_rows};
use rel_base::{List, NoMemory, Row};
use std::alloc::Global;

/// Puts a spot at the end of a path, which has room for it.
fn push(spots: &mut Vec<Spot>, spot: Spot)
    requires { vec_len spots.old < vec_capacity spots.old }
    ensures items { spots.new.items ≡ spots.old.items ++ spot ∷ [] }
    ensures len { vec_len spots.new ≡ vec_len spots.old + 1 }
    ensures capacity { vec_capacity spots.old ≤ vec_capacity spots.new }
{
    match spots.push(spot) {
        Ok(()) => (),
        Err(_) => unreachable!(),
    }
}

/// Puts a block of the statement of a number at the end of a path, which has room for it. The block's own statement of a number is next.
pub fn push_block(spots: &mut Vec<Spot>, at: usize, branch: Branch, next: usize)
    requires { vec_len spots.old < vec_capacity spots.old }
    ensures items { spots.new.items ≡ spots.old.items ++ spot.Block at branch next ∷ [] }
    ensures len { vec_len spots.new ≡ vec_len spots.old + 1 }
    ensures capacity { vec_capacity spots.old ≤ vec_capacity spots.new }
{
    push(spots, Spot::Block { at, branch, next });
}

/// Puts what is left of a block at the end of a path, which has room for it: the block's own statement of a number is next, where there is
/// one. The block has a number of statements.
pub fn push_rest(spots: &mut Vec<Spot>, cursor: Cursor, whole: usize)
    requires { vec_len spots.old < vec_capacity spots.old }
    ensures same { (tables : List Def) (columns : List (List (Option ℕ))) (S : Tables) (root : List Act) → whole ≡ length (part_of (block_of root spots.old.items) cursor.at cursor.branch)
        → IsSamePath tables columns S root spots.new.items (spots.old.items ++ spot.Block cursor.at cursor.branch cursor.next ∷ []) }
    ensures len { vec_len spots.new ≡ vec_len spots.old + 1 }
    ensures capacity { vec_capacity spots.old ≤ vec_capacity spots.new }
{
    let Cursor { at, branch, next } = cursor;
    if next < whole {
        push_block(spots, at, branch, next);
    } else {
        push(spots, Spot::Done { at, branch });
    }
}

/// Puts the rows of a `for` at the end of a path, which has room for them. The row of a number is next.
pub fn push_rows(spots: &mut Vec<Spot>, holder: Holder, rows: List<Row>, next: usize)
    requires { vec_len spots.old < vec_capacity spots.old }
    ensures items { spots.new.items ≡ spots.old.items ++ spot.Loop holder.at holder.slot holder.table rows next ∷ [] }
    ensures len { vec_len spots.new ≡ vec_len spots.old + 1 }
    ensures capacity { vec_capacity spots.old ≤ vec_capacity spots.new }
{
    push(
        spots,
        Spot::Loop {
            at: holder.at,
            slot: holder.slot,
            table: holder.table,
            rows,
            next,
        },
    )
}

/// Goes on with a block, which was the last spot of the path: with its assignments that are next, and with the statement after them.
/// Where memory is wanting, what remains is as before.
fn turn_block(
    alloc: Global,
    program: &Program<'_>,
    spots: &mut Vec<Spot>,
    run: &mut Run,
    cursor: Cursor,
) -> Result<Phase, NoMemory>
    requires room { vec_len spots.old + 2 ≤ vec_capacity spots.old }
    requires steps { run.old.steps ≤ most_steps }
    ensures remains { IfOk result (λ phase. (S : Tables) → remains program.now.tables.now program.now.columns.now S program.now.root.now phase spots.new.items (state run.new)
        ≡ run_frames program.now.tables.now program.now.columns.now S (frames_of program.now.root.now (spots.old.items ++ spot.Block cursor.at cursor.branch cursor.next ∷ [])) (state run.old)) }
    ensures fits { IfOk result (λ phase. PhaseFits program.now.tables.now phase) }
    ensures fresh { IfOk result (λ phase. has_rows phase ≡ false) }
    ensures own { run.new.own ≡ run.old.own }
    ensures made { run.new.made ≡ run.old.made }
    ensures steps { run.new.steps ≤ most_steps }
    ensures smaller { result ≡ Ok phase.Running → vec_len spots.new + 2 * run.old.steps < vec_len spots.old + 1 + 2 * run.new.steps }
    ensures err { OnErr result ((S : Tables) → run_frames program.now.tables.now program.now.columns.now S (frames_of program.now.root.now spots.new.items) (state run.new)
        ≡ run_frames program.now.tables.now program.now.columns.now S (frames_of program.now.root.now (spots.old.items ++ spot.Block cursor.at cursor.branch cursor.next ∷ [])) (state run.old)) }
{
    let Cursor { at, branch, next } = cursor;
    let block = part(block_at(program.root, spots), at, branch);
    let next = assign_all(alloc, program.columns, block, next, run);
    let cursor = Cursor { at, branch, next };
    step_block(alloc, program, spots, run, block, cursor)
}

/// Goes on with the rows of a `for`, which were the last spot of the path: with those for which assignments alone are done, and with
/// the row after them. Where memory is wanting, what remains is as before.
fn turn_loop(
    alloc: Global,
    program: &Program<'_>,
    spots: &mut Vec<Spot>,
    run: &mut Run,
    holder: Holder,
    left: RowsLeft,
) -> Result<Phase, NoMemory>
    requires room { vec_len spots.old + 2 ≤ vec_capacity spots.old }
    requires steps { run.old.steps ≤ most_steps }
    ensures remains { IfOk result (λ phase. (S : Tables) → remains program.now.tables.now program.now.columns.now S program.now.root.now phase spots.new.items (state run.new)
        ≡ run_frames program.now.tables.now program.now.columns.now S (frames_of program.now.root.now (spots.old.items ++ spot.Loop holder.at holder.slot holder.table left.rows left.next ∷ [])) (state run.old)) }
    ensures fits { IfOk result (λ phase. PhaseFits program.now.tables.now phase) }
    ensures fresh { IfOk result (λ phase. has_rows phase ≡ false) }
    ensures own { run.new.own ≡ run.old.own }
    ensures made { run.new.made ≡ run.old.made }
    ensures steps { run.new.steps ≤ most_steps }
    ensures smaller { result ≡ Ok phase.Running → vec_len spots.new + 2 * run.old.steps < vec_len spots.old + 1 + 2 * run.new.steps }
    ensures err { OnErr result ((S : Tables) → run_frames program.now.tables.now program.now.columns.now S (frames_of program.now.root.now spots.new.items) (state run.new)
        ≡ run_frames program.now.tables.now program.now.columns.now S (frames_of program.now.root.now (spots.old.items ++ spot.Loop holder.at holder.slot holder.table left.rows left.next ∷ [])) (state run.old)) }
{
    let RowsLeft { rows, next } = left;
    let mut rows = rows.into_vec();
    let body = part(block_at(program.root, spots), holder.at, Branch::First);
    let visit = Visit {
        columns: program.columns,
        body,
        holder,
    };
    let Reached { row, statement } = visit_rows(alloc, &visit, &mut rows, next, run);
    let rows = List::from_vec(rows);
    if statement < body.len() {
        push_rows(spots, holder, rows, row);
        push_block(spots, holder.at, Branch::First, statement);
        Ok(Phase::Running)
    } else {
        step_rows(alloc, spots, run, holder, rows, row)
    }
}

/// One turn: the last spot goes on. Where memory is wanting, what remains is as before.
#[tactic(auto, using(crate::proofs::Paths::done_over))]
fn turn(
    alloc: Global,
    program: &Program<'_>,
    spots: &mut Vec<Spot>,
    run: &mut Run,
) -> Result<Phase, NoMemory>
    requires room { vec_len spots.old + 2 ≤ vec_capacity spots.old }
    requires steps { run.old.steps ≤ most_steps }
    ensures remains { IfOk result (λ phase. (S : Tables) → remains program.now.tables.now program.now.columns.now S program.now.root.now phase spots.new.items (state run.new)
        ≡ run_frames program.now.tables.now program.now.columns.now S (frames_of program.now.root.now spots.old.items) (state run.old)) }
    ensures fits { IfOk result (λ phase. PhaseFits program.now.tables.now phase) }
    ensures fresh { IfOk result (λ phase. has_rows phase ≡ false) }
    ensures own { run.new.own ≡ run.old.own }
    ensures made { run.new.made ≡ run.old.made }
    ensures steps { run.new.steps ≤ most_steps }
    ensures smaller { result ≡ Ok phase.Running → vec_len spots.new + 2 * run.old.steps < vec_len spots.old + 2 * run.new.steps }
    ensures err { OnErr result ((S : Tables) → run_frames program.now.tables.now program.now.columns.now S (frames_of program.now.root.now spots.new.items) (state run.new)
        ≡ run_frames program.now.tables.now program.now.columns.now S (frames_of program.now.root.now spots.old.items) (state run.old)) }
{
    match spots.pop() {
        None => Ok(Phase::Good),
        Some(Spot::Block { at, branch, next }) => {
            let cursor = Cursor { at, branch, next };
            turn_block(alloc, program, spots, run, cursor)
        }
        Some(Spot::Done { .. }) => Ok(Phase::Running),
        Some(
            Spot::Loop {
                at,
                slot,
                table,
                rows,
                next,
            },
        ) => {
            let holder = Holder { at, slot, table };
            turn_loop(alloc, program, spots, run, holder, RowsLeft { rows, next })
        }
    }
}

/// Goes on to the next read or to the end. Where memory is wanting, what remains of the run is as before.
pub fn advance(
    alloc: Global,
    program: &Program<'_>,
    spots: &mut Vec<Spot>,
    run: &mut Run,
) -> Result<Phase, NoMemory>
    requires { run.old.steps ≤ most_steps }
    ensures remains { IfOk result (λ phase. (S : Tables) → remains program.now.tables.now program.now.columns.now S program.now.root.now phase spots.new.items (state run.new)
        ≡ run_frames program.now.tables.now program.now.columns.now S (frames_of program.now.root.now spots.old.items) (state run.old)) }
    ensures fits { IfOk result (λ phase. PhaseFits program.now.tables.now phase) }
    ensures waits { IfOk result (λ phase. waits phase ≡ true) }
    ensures own { run.new.own ≡ run.old.own }
    ensures made { run.new.made ≡ run.old.made }
    ensures steps { run.new.steps ≤ most_steps }
    ensures err { OnErr result ((S : Tables) → run_frames program.now.tables.now program.now.columns.now S (frames_of program.now.root.now spots.new.items) (state run.new)
        ≡ run_frames program.now.tables.now program.now.columns.now S (frames_of program.now.root.now spots.old.items) (state run.old)) }
{
    loop {
        spots.reserve(2)?;
        match turn(alloc, program, spots, run)? {
            Phase::Running => (),
            phase => return Ok(phase),
        }
    }
}
