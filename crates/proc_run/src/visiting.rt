//! The rows of a `for`, of which many are gone over in a turn.

ghost use Rattle.std.specs.Prelude.{◌≡◌, ◌+◌, ◌≤◌, ◌<◌, [], IfSome, IfNone, true, false, drop, length, vec_len};
ghost use Rattle.proc_run.specs.Remains.{state, IsHeldFrom, IsSameRest, IsSameVisit};
ghost use Rattle.proc_syntax.specs.Limits.{most_steps};

use crate::assigning::assign_all;
use crate::path::Holder;
use crate::state::Run;
use crate::stepping::row_at;
use crate::variables::{exchange, hold};
use proc_code::Action;
use proc_syntax::Binding;
use proc_syntax::run::MOST_RUN_STEPS;
use rel_base::{List, Row};
use std::alloc::Global;

/// The block for each row of a `for`, and the variable that holds the row.
#[derive(Clone, Copy)]
pub struct Visit<'a> {
    pub columns: &'a List<List<Option<usize>>>,
    pub body: &'a [Action],
    pub holder: Holder,
}

/// How far a visit is: the number of the row that is next, and before it that of the statement of the block that is next.
#[derive(Clone, Copy)]
pub struct Reached {
    pub row: usize,
    pub statement: usize,
}

/// The row of a number changes places with the one that its variable holds. Whether it holds one.
fn exchange_at(
    alloc: Global,
    slots: &mut List<Option<Binding>>,
    holder: Holder,
    rows: &mut Vec<Row>,
    next: usize,
) -> bool
    requires { next < vec_len rows.old }
    ensures done { result ≡ true → IsHeldFrom holder.slot holder.table next rows.old.items slots.old slots.new }
    ensures rest { drop (next + 1) rows.new.items ≡ drop (next + 1) rows.old.items }
    ensures len { vec_len rows.new ≡ vec_len rows.old }
    ensures none { result ≡ false → slots.new ≡ slots.old }
    ensures rows { result ≡ false → rows.new.items ≡ rows.old.items }
{
    exchange(alloc, slots, holder, &mut rows[next])
}

/// The row of a number goes into its variable: by exchange with the row that the variable holds, or as a copy where it holds none. Rows
/// that were gone over are not looked at again, so it does not tell what stands in their places.
fn hold_next(
    alloc: Global,
    slots: &mut List<Option<Binding>>,
    holder: Holder,
    rows: &mut Vec<Row>,
    next: usize,
) -> bool
    requires { next < vec_len rows.old }
    ensures done { result ≡ true → IsHeldFrom holder.slot holder.table next rows.old.items slots.old slots.new }
    ensures rest { drop (next + 1) rows.new.items ≡ drop (next + 1) rows.old.items }
    ensures len { vec_len rows.new ≡ vec_len rows.old }
    ensures none { result ≡ false → slots.new ≡ slots.old }
    ensures rows { result ≡ false → rows.new.items ≡ rows.old.items }
{
    if exchange_at(alloc, slots, holder, rows, next) {
        return true;
    }
    match row_at(alloc, rows.as_slice(), next) {
        Err(_) => false,
        Ok(row) => {
            hold(slots, holder, row);
            true
        }
    }
}

/// Counts a step for a row, which is in its variable, and does the assignments with which the block begins. Answers the number of the
/// statement that is next.
fn visit_row(alloc: Global, visit: &Visit<'_>, run: &mut Run) -> usize
    requires { run.old.steps < most_steps }
    ensures same { IsSameRest visit.now.columns.now visit.now.body.now (record (state run.old) { steps = run.old.steps + 1 }) (drop result visit.now.body.now) (state run.new) }
    ensures more { run.old.steps < run.new.steps }
    ensures few { run.new.steps ≤ most_steps }
    ensures own { run.new.own ≡ run.old.own }
    ensures made { run.new.made ≡ run.old.made }
{
    run.steps += 1;
    assign_all(alloc, visit.columns, visit.body, 0, run)
}

/// Visits the row of a number, where there is one and a step is left. Answers the number of the block's statement that is next.
fn visit_next(
    alloc: Global,
    visit: &Visit<'_>,
    rows: &mut Vec<Row>,
    next: usize,
    run: &mut Run,
) -> Option<usize>
    requires { run.old.steps ≤ most_steps }
    ensures same { IfSome result (λ at. IsSameVisit visit.now.columns.now visit.now.holder.slot visit.now.holder.table visit.now.body.now [] (drop next rows.old.items) (state run.old) (drop at visit.now.body.now) (drop (next + 1) rows.new.items) (state run.new)) }
    ensures within { IfSome result (λ at. next < vec_len rows.old) }
    ensures len { vec_len rows.new ≡ vec_len rows.old }
    ensures more { IfSome result (λ at. run.old.steps < run.new.steps) }
    ensures few { run.new.steps ≤ most_steps }
    ensures own { run.new.own ≡ run.old.own }
    ensures made { run.new.made ≡ run.old.made }
    ensures none { IfNone result (run.new ≡ run.old) }
    ensures rows { IfNone result (rows.new.items ≡ rows.old.items) }
{
    if run.steps >= MOST_RUN_STEPS {
        return None;
    }
    if next >= rows.len() {
        return None;
    }
    if hold_next(alloc, &mut run.environment.slots, visit.holder, rows, next) {
        Some(visit_row(alloc, visit, run))
    } else {
        None
    }
}

/// Goes over rows from a number on, up to one for which more than assignments are to be done.
pub fn visit_rows(
    alloc: Global,
    visit: &Visit<'_>,
    rows: &mut Vec<Row>,
    next: usize,
    run: &mut Run,
) -> Reached
    requires { run.old.steps ≤ most_steps }
    ensures same { IsSameVisit visit.now.columns.now visit.now.holder.slot visit.now.holder.table visit.now.body.now [] (drop next rows.old.items) (state run.old) (drop result.statement visit.now.body.now) (drop result.row rows.new.items) (state run.new) }
    ensures more { run.old.steps ≤ run.new.steps }
    ensures inside { result.statement < length visit.now.body.now → run.old.steps < run.new.steps }
    ensures few { run.new.steps ≤ most_steps }
    ensures own { run.new.own ≡ run.old.own }
    ensures made { run.new.made ≡ run.old.made }
{
    let whole = visit.body.len();
    let mut reached = Reached {
        row: next,
        statement: whole,
    };
    while reached.statement >= whole {
        match visit_next(alloc, visit, rows, reached.row, run) {
            None => return reached,
            Some(statement) => {
                reached = Reached {
                    row: reached.row + 1,
                    statement,
                }
            }
        }
    }
    reached
}
