//! Loops that add up: the assignments of sums, differences and products with which the block of a loop begins. Their operands are resolved once,
//! before the first row.

ghost use Rattle.std.specs.Prelude.{◌≡◌, ◌≤◌, ◌∷◌, ◌++◌, [], IfSome, List as Items, Ok, Some, drop, false, length, true};
ghost use Rattle.rel_base.specs.declared.schema.TableDef.{TableDef as Def};
ghost use Rattle.rel_base.specs.declared.value.Value.TheVariants.{Int};
ghost use Rattle.rel_base.specs.Tables.{Tables};
ghost use Rattle.proc_syntax.specs.Values.{found};
ghost use Rattle.proc_code.specs.Coded.{do_all};
ghost use Rattle.proc_code.specs.declared.tree.Action.{Action as Act};
ghost use Rattle.proc_code.specs.Weighed.{applied};
ghost use Rattle.direct_run.specs.Runs.{state_of};
ghost use Rattle.direct_run.specs.Scope.{bindings_of};
ghost use Rattle.direct_run.specs.Sums.{BeginsWith, IsHeld, IsOperand, IsSum, value_of};

use crate::scope::{Slot, put_number};
use crate::state::Run;
use proc_code::quick::{is_counting, number_by};
use proc_code::slots::column_at;
use proc_code::{Action, Term};
use proc_syntax::Op;
use proc_syntax::run::MOST_RUN_STEPS;
use rel_base::{List, Row, Value};
use std::alloc::Global;

/// Where the number stands that an expression is: in the code, in a variable, or in a column of the row of a loop.
#[derive(Clone, Copy)]
pub enum Operand {
    Number(i64),
    Variable(usize),
    Column(usize),
}

/// An assignment to a variable of what an operator gives of two numbers.
#[derive(Clone, Copy)]
pub struct Sum {
    pub slot: usize,
    pub op: Op,
    pub left: Operand,
    pub right: Operand,
}

/// The variable of a loop, which holds rows of a table, and where the columns of the tables stand.
#[derive(Clone, Copy)]
pub struct Turn<'a> {
    pub columns: &'a List<List<Option<usize>>>,
    pub slot: usize,
    pub table: u32,
}

/// Where the number stands that an expression is in a loop.
fn operand_of(turn: Turn<'_>, term: &Term) -> Option<Operand>
    ensures { IfSome result (IsOperand turn.entry.columns.now turn.entry.slot turn.entry.table term.now) }
{
    match term {
        Term::Value(Value::Int(number)) => Some(Operand::Number(*number)),
        Term::Var(slot) => Some(Operand::Variable(*slot)),
        Term::Field { slot, column } if *slot == turn.slot => {
            let column = column_at(turn.columns, *column, turn.table)?;
            Some(Operand::Column(column))
        }
        _ => None,
    }
}

/// The assignment that a variable gets what an operator gives of two expressions in a loop.
fn sum_of_two(turn: Turn<'_>, slot: usize, op: Op, left: &Term, right: &Term) -> Option<Sum>
    ensures to { IfSome result (λ sum. (sum.slot ≡ slot) × (sum.op ≡ op)) }
    ensures other { IfSome result (λ sum. slot ≡ turn.entry.slot → ⊥) }
    ensures left { IfSome result (λ sum. IsOperand turn.entry.columns.now turn.entry.slot turn.entry.table left.now sum.left) }
    ensures right { IfSome result (λ sum. IsOperand turn.entry.columns.now turn.entry.slot turn.entry.table right.now sum.right) }
{
    if slot == turn.slot || !is_counting(op) {
        return None;
    }
    let left = operand_of(turn, left)?;
    let right = operand_of(turn, right)?;
    Some(Sum {
        slot,
        op,
        left,
        right,
    })
}

/// The assignment that a statement is in a loop.
fn sum_of(turn: Turn<'_>, action: &Action) -> Option<Sum>
    ensures { IfSome result (IsSum turn.entry.columns.now turn.entry.slot turn.entry.table action.now) }
{
    match action {
        Action::Set {
            slot,
            value: Term::Two { op, left, right },
        } => sum_of_two(turn, *slot, *op, left.get(), right.get()),
        _ => None,
    }
}

/// Puts an assignment at the end of some: whether memory sufficed.
fn has_pushed(sums: &mut Vec<Sum>, sum: Sum) -> bool
    ensures pushed { result ≡ true → sums.new.items ≡ sums.old.items ++ sum ∷ [] }
    ensures kept { result ≡ false → sums.new.items ≡ sums.old.items }
{
    sums.push(sum).is_ok()
}

/// The assignments with which the block of a loop begins. Where memory runs out they are fewer, and the others are done as any statement is.
pub fn sums_of(alloc: Global, turn: Turn<'_>, block: &[Action]) -> Vec<Sum>
    ensures { BeginsWith turn.entry.columns.now turn.entry.slot turn.entry.table block.now result.items }
{
    let mut sums = Vec::new(alloc);
    for action in block {
        let Some(sum) = sum_of(turn, action) else {
            return sums;
        };
        if !has_pushed(&mut sums, sum) {
            return sums;
        }
    }
    sums
}

/// The number that an operand is.
#[inline(always)]
fn number_at(slots: &[Slot<'_>], row: &Row, operand: Operand) -> Option<i64>
    ensures { IfSome result (λ n. value_of (bindings_of slots.now) row.now operand ≡ Some (Int n)) }
{
    match operand {
        Operand::Number(number) => Some(number),
        Operand::Variable(slot) => match slots.get(slot) {
            Some(Slot::Plain(Value::Int(number))) => Some(*number),
            _ => None,
        },
        Operand::Column(column) => match row.get(column) {
            Some(Value::Int(number)) => Some(*number),
            _ => None,
        },
    }
}

/// The number that an assignment gives its variable.
#[inline(always)]
fn number_of(slots: &[Slot<'_>], row: &Row, sum: &Sum) -> Option<i64>
    ensures { IfSome result (λ n. applied sum.now.op (found (value_of (bindings_of slots.now) row.now sum.now.left)) (found (value_of (bindings_of slots.now) row.now sum.now.right)) ≡ Ok (Int n)) }
{
    let left = number_at(slots, row, sum.left)?;
    let right = number_at(slots, row, sum.right)?;
    number_by(sum.op, left, right)
}

/// Does assignments for a row, which the variable of the loop holds, up to the first that can not be done so: how many were done.
#[inline(always)]
pub fn add_up(run: &mut Run<'_>, turn: Turn<'_>, row: &Row, sums: &[Sum]) -> usize
    ensures own { run.new.own ≡ run.old.own }
    ensures does { (block : Items Act) → BeginsWith turn.entry.columns.now turn.entry.slot turn.entry.table block sums.now → IsHeld (bindings_of run.old.scope.slots.items) turn.entry.slot turn.entry.table row.now
        → (result ≤ length block) × ((declared : Items Def) (tables : Tables) → do_all declared turn.entry.columns.now tables (drop result block) (state_of run.new) ≡ do_all declared turn.entry.columns.now tables block (state_of run.old)) }
{
    if turn.slot >= run.scope.slots.len() {
        return 0;
    }
    let mut done = 0;
    for sum in sums {
        if run.steps >= MOST_RUN_STEPS {
            return done;
        }
        let Some(number) = number_of(run.scope.slots.as_slice(), row, sum) else {
            return done;
        };
        put_number(&mut run.scope.slots, sum.slot, number);
        run.steps += 1;
        done += 1;
    }
    done
}
