//! Numbers and comparisons of numbers that are found with no value on the way. A leaf is an expression with no other in it.

ghost use Rattle.std.specs.Prelude.{◌≡◌, IfSome, Some, Ok};
ghost use Rattle.std.specs.Option.{option_copied};
ghost use Rattle.rel_base.specs.declared.value.Value.TheVariants.{Int, Bool};
ghost use Rattle.proc_syntax.specs.Values.{apply};
ghost use Rattle.proc_code.specs.Coded.{worth_of};
ghost use Rattle.proc_code.specs.Weighed.{applied};

use crate::slots::Variables;
use crate::tree::Term;
use proc_syntax::Op;
use rel_base::{List, Value};

/// The number that a value is.
#[inline(always)]
fn number_in(value: Option<&Value>) -> Option<i64>
    ensures { IfSome result (λ n. option_copied value.entry ≡ Some (Int n)) }
{
    match value {
        Some(Value::Int(number)) => Some(*number),
        _ => None,
    }
}

/// Whether an operator may give a number of two numbers, so that it is worth looking for them.
#[inline(always)]
pub fn is_counting(op: Op) -> bool {
    match op {
        Op::Add | Op::Sub | Op::Mul => true,
        _ => false,
    }
}

/// The number that an operator gives of two numbers, where it gives one.
#[inline(always)]
pub fn number_by(op: Op, left: i64, right: i64) -> Option<i64>
    ensures { IfSome result (λ n. apply op (Int left) (Ok (Int right)) ≡ Ok (Int n)) }
{
    match op {
        Op::Add => left.checked_add(right),
        Op::Sub => left.checked_sub(right),
        Op::Mul => left.checked_mul(right),
        _ => None,
    }
}

/// The number that a leaf is, where it stands in the code, in a variable or in a row.
#[inline(always)]
pub fn leaf_number<E: Variables>(
    columns: &List<List<Option<usize>>>,
    environment: &E,
    term: &Term,
) -> Option<i64>
    ensures { IfSome result (λ n. worth_of columns.now term.now (E.environment environment.now) ≡ Ok (Int n)) }
{
    match term {
        Term::Value(value) => number_in(Some(value)),
        Term::Var(slot) => number_in(environment.plain(*slot)),
        Term::Field { slot, column } => number_in(environment.field(columns, *slot, *column)),
        _ => None,
    }
}

/// The number that an operator gives of two leaves, where they are numbers and it gives one.
#[inline(always)]
fn number_of_leaves<E: Variables>(
    columns: &List<List<Option<usize>>>,
    environment: &E,
    op: Op,
    left: &Term,
    right: &Term,
) -> Option<i64>
    ensures { IfSome result (λ n. applied op (worth_of columns.now left.now (E.environment environment.now)) (worth_of columns.now right.now (E.environment environment.now)) ≡ Ok (Int n)) }
{
    if !is_counting(op) {
        return None;
    }
    let left = leaf_number(columns, environment, left)?;
    let right = leaf_number(columns, environment, right)?;
    number_by(op, left, right)
}

/// The number that an expression is, where it is a leaf or an operator between two. Most expressions are, so this stands in its callers:
/// it calls nothing, and no value is moved.
#[inline(always)]
pub fn quick_number<E: Variables>(
    columns: &List<List<Option<usize>>>,
    environment: &E,
    term: &Term,
) -> Option<i64>
    ensures { IfSome result (λ n. worth_of columns.now term.now (E.environment environment.now) ≡ Ok (Int n)) }
{
    match term {
        Term::Two { op, left, right } => {
            number_of_leaves(columns, environment, *op, left.get(), right.get())
        }
        _ => leaf_number(columns, environment, term),
    }
}

/// The number that an operator gives of a number and of that of an expression, where it gives one.
#[cycle(deep_number)]
fn deep_right<E: Variables>(
    columns: &List<List<Option<usize>>>,
    environment: &E,
    op: Op,
    left: i64,
    right: &Term,
) -> Option<i64>
    ensures { IfSome result (λ n. apply op (Int left) (worth_of columns.now right.now (E.environment environment.now)) ≡ Ok (Int n)) }
{
    let right = deep_number(columns, environment, right)?;
    number_by(op, left, right)
}

/// The number that an expression is, where it is one that is found with no value on the way.
#[cycle(deep_number)]
pub fn deep_number<E: Variables>(
    columns: &List<List<Option<usize>>>,
    environment: &E,
    term: &Term,
) -> Option<i64>
    ensures { IfSome result (λ n. worth_of columns.now term.now (E.environment environment.now) ≡ Ok (Int n)) }
{
    match term {
        Term::Now => Some(environment.time()),
        Term::Two { op, left, right } => {
            if !is_counting(*op) {
                return None;
            }
            let left = deep_number(columns, environment, left.get())?;
            deep_right(columns, environment, *op, left, right.get())
        }
        _ => leaf_number(columns, environment, term),
    }
}

/// Whether an operator compares, so that it is worth looking for two numbers.
#[inline(always)]
fn is_comparison(op: Op) -> bool {
    match op {
        Op::Eq | Op::Ne | Op::Lt | Op::Le | Op::Gt | Op::Ge => true,
        _ => false,
    }
}

/// What a comparison of two numbers gives.
#[inline(always)]
fn test_by(op: Op, left: i64, right: i64) -> Option<bool>
    ensures { IfSome result (λ b. apply op (Int left) (Ok (Int right)) ≡ Ok (Bool b)) }
{
    let order = left.cmp(&right);
    match op {
        Op::Eq => Some(order.is_eq()),
        Op::Ne => Some(order.is_ne()),
        Op::Lt => Some(order.is_lt()),
        Op::Le => Some(order.is_le()),
        Op::Gt => Some(order.is_gt()),
        Op::Ge => Some(order.is_ge()),
        _ => None,
    }
}

/// What a comparison of two leaves gives, where they are numbers.
#[inline(always)]
fn test_of_leaves<E: Variables>(
    columns: &List<List<Option<usize>>>,
    environment: &E,
    op: Op,
    left: &Term,
    right: &Term,
) -> Option<bool>
    ensures { IfSome result (λ b. applied op (worth_of columns.now left.now (E.environment environment.now)) (worth_of columns.now right.now (E.environment environment.now)) ≡ Ok (Bool b)) }
{
    if !is_comparison(op) {
        return None;
    }
    let left = leaf_number(columns, environment, left)?;
    let right = leaf_number(columns, environment, right)?;
    test_by(op, left, right)
}

/// The truth value that an expression is, where it compares two leaves that are numbers.
#[inline(always)]
pub fn quick_test<E: Variables>(
    columns: &List<List<Option<usize>>>,
    environment: &E,
    term: &Term,
) -> Option<bool>
    ensures { IfSome result (λ b. worth_of columns.now term.now (E.environment environment.now) ≡ Ok (Bool b)) }
{
    match term {
        Term::Two { op, left, right } => {
            test_of_leaves(columns, environment, *op, left.get(), right.get())
        }
        _ => None,
    }
}

/// What a comparison of two expressions gives, where they are numbers that are found with no value on the way.
fn test_of_two<E: Variables>(
    columns: &List<List<Option<usize>>>,
    environment: &E,
    op: Op,
    left: &Term,
    right: &Term,
) -> Option<bool>
    ensures { IfSome result (λ b. applied op (worth_of columns.now left.now (E.environment environment.now)) (worth_of columns.now right.now (E.environment environment.now)) ≡ Ok (Bool b)) }
{
    if !is_comparison(op) {
        return None;
    }
    let left = deep_number(columns, environment, left)?;
    let right = deep_number(columns, environment, right)?;
    test_by(op, left, right)
}

/// The truth value that an expression is, where it compares two numbers that are found with no value on the way.
pub fn deep_test<E: Variables>(
    columns: &List<List<Option<usize>>>,
    environment: &E,
    term: &Term,
) -> Option<bool>
    ensures { IfSome result (λ b. worth_of columns.now term.now (E.environment environment.now) ≡ Ok (Bool b)) }
{
    match term {
        Term::Two { op, left, right } => {
            test_of_two(columns, environment, *op, left.get(), right.get())
        }
        _ => None,
    }
}
