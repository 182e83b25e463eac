//! Assignments, of which many are done in a turn: they wait for no read, so nothing of them is put on the path.

ghost use Rattle.std.specs.Prelude.{◌≡◌, ◌+◌, ◌≤◌, ◌<◌, true, false, drop, length};
ghost use Rattle.proc_run.specs.Remains.{state, IsSameRest, IsAssigned};
ghost use Rattle.proc_syntax.specs.Limits.{most_steps};

use crate::state::Run;
use crate::variables::{put, put_number};
use proc_code::quick::quick_number;
use proc_code::values::eval;
use proc_code::{Action, Term};
use proc_syntax::Binding;
use proc_syntax::run::MOST_RUN_STEPS;
use rel_base::List;
use std::alloc::Global;

/// Counts a step, and gives a variable the value of an expression, where there is one. Where there is none, nothing is done.
#[inline(never)]
fn assign_value(
    alloc: Global,
    columns: &List<List<Option<usize>>>,
    slot: usize,
    value: &Term,
    run: &mut Run,
) -> bool
    requires { run.old.steps < most_steps }
    ensures slots { result ≡ true → IsAssigned columns.now slot value.now (state run.old) (state run.new) }
    ensures steps { result ≡ true → run.new.steps ≡ run.old.steps + 1 }
    ensures own { run.new.own ≡ run.old.own }
    ensures made { run.new.made ≡ run.old.made }
    ensures none { result ≡ false → run.new ≡ run.old }
{
    match eval(alloc, columns, &run.environment, value) {
        Err(_) => false,
        Ok(value) => {
            run.steps += 1;
            put(&mut run.environment.slots, slot, Binding::Plain(value));
            true
        }
    }
}

/// The same, where a value that is a number is found with no value on the way.
#[inline(always)]
fn assign(
    alloc: Global,
    columns: &List<List<Option<usize>>>,
    slot: usize,
    value: &Term,
    run: &mut Run,
) -> bool
    requires { run.old.steps < most_steps }
    ensures slots { result ≡ true → IsAssigned columns.now slot value.now (state run.old) (state run.new) }
    ensures steps { result ≡ true → run.new.steps ≡ run.old.steps + 1 }
    ensures own { run.new.own ≡ run.old.own }
    ensures made { run.new.made ≡ run.old.made }
    ensures none { result ≡ false → run.new ≡ run.old }
{
    match quick_number(columns, &run.environment, value) {
        Some(number) => {
            run.steps += 1;
            put_number(alloc, &mut run.environment.slots, slot, number);
            true
        }
        None => assign_value(alloc, columns, slot, value, run),
    }
}

/// Does the statement of a number in a block, where it is an assignment that can be done. Where it is not, nothing is done.
#[inline(always)]
fn assign_next(
    alloc: Global,
    columns: &List<List<Option<usize>>>,
    block: &[Action],
    next: usize,
    run: &mut Run,
) -> bool
    requires { run.old.steps ≤ most_steps }
    ensures same { result ≡ true → IsSameRest columns.now (drop next block.now) (state run.old) (drop (next + 1) block.now) (state run.new) }
    ensures within { result ≡ true → next < length block.now }
    ensures steps { result ≡ true → run.new.steps ≡ run.old.steps + 1 }
    ensures few { run.new.steps ≤ most_steps }
    ensures own { run.new.own ≡ run.old.own }
    ensures made { run.new.made ≡ run.old.made }
    ensures none { result ≡ false → run.new ≡ run.old }
{
    if run.steps >= MOST_RUN_STEPS {
        return false;
    }
    match block.get(next) {
        Some(Action::Set { slot, value }) => assign(alloc, columns, *slot, value, run),
        _ => false,
    }
}

/// Does the statements of a block from a number on while they are assignments that can be done, and answers the number of the first
/// that is not.
#[inline(always)]
pub fn assign_all(
    alloc: Global,
    columns: &List<List<Option<usize>>>,
    block: &[Action],
    next: usize,
    run: &mut Run,
) -> usize
    requires { run.old.steps ≤ most_steps }
    ensures same { IsSameRest columns.now (drop next block.now) (state run.old) (drop result block.now) (state run.new) }
    ensures more { run.old.steps ≤ run.new.steps }
    ensures few { run.new.steps ≤ most_steps }
    ensures own { run.new.own ≡ run.old.own }
    ensures made { run.new.made ≡ run.old.made }
{
    let mut next = next;
    while assign_next(alloc, columns, block, next, run) {
        next += 1;
    }
    next
}
