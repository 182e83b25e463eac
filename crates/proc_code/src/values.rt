//! The values of expressions in code.

ghost use Rattle.std.specs.Prelude.{◌≡◌, [], ◌∷◌, IfOk, Ok};
ghost use Rattle.std.specs.Option.{option_and_then};
ghost use Rattle.proc_syntax.specs.Scope.{plain_of};
ghost use Rattle.proc_syntax.specs.Values.{apply, found, negation_of, not_of, two_of};
ghost use Rattle.proc_eval.specs.Gives.{Gives};
ghost use Rattle.proc_code.specs.Coded.{cell_of, in_slot, worth_of, worths_of, end_worth, set_worth, sets_worth};
ghost use Rattle.proc_code.specs.Weighed.{Weighs, lent, truth_of, weight};

use crate::quick::{deep_number, deep_test, leaf_number, quick_number, quick_test};
use crate::slots::Variables;
use crate::tree::{Setting, Term};
use proc_eval::Halt;
use proc_eval::arith::negation;
use proc_eval::compare::{flag, negated, two};
use proc_syntax::{Op, Stop};
use rel_base::{Key, List, NoMemory, Row, RowMaker, Twin, Value};
use std::alloc::Global;

/// A value that was computed, or one that stands in the code, in a variable or in a row that a variable holds, and is not copied.
#[derive(Drop)]
pub enum Worth<'a> {
    Made(Value),
    Lent(&'a Value),
}

impl<'a> Worth<'a> {
    /// The value.
    pub fn get(&self) -> &Value
        ensures { result.now ≡ weight self.now }
    {
        match self {
            Worth::Made(value) => value,
            Worth::Lent(value) => *value,
        }
    }
}

/// The value of what a variable stands for.
fn plain_value<E: Variables>(environment: &E, slot: usize) -> Result<&Value, Stop>
    ensures { lent result ≡ found (option_and_then plain_of (in_slot (E.environment environment.now).slots slot)) }
{
    environment.plain(slot).ok_or(Stop::IllTyped)
}

/// The value of the row that a variable holds, in the column of a name.
fn field_value<'a, E: Variables>(
    columns: &List<List<Option<usize>>>,
    environment: &'a E,
    slot: usize,
    name: usize,
) -> Result<&'a Value, Stop>
    ensures { lent result ≡ found (option_and_then (cell_of columns.now name) (in_slot (E.environment environment.now).slots slot)) }
{
    environment.field(columns, slot, name).ok_or(Stop::IllTyped)
}

/// A copy of a value.
fn copied(alloc: Global, value: &Value) -> Result<Value, Halt>
    ensures { Gives result (Ok value.now) }
{
    let value = value.copy(alloc)?;
    Ok(value)
}

/// The truth value that a value is.
fn truth_of(worth: Worth<'_>) -> Result<Value, Halt>
    ensures { Gives result (truth_of (weight worth.entry)) }
{
    let holds = flag(worth.get())?;
    Ok(Value::Bool(holds))
}

/// `not` of a value.
fn not_of(worth: Worth<'_>) -> Result<Value, Halt>
    ensures { Gives result (not_of (weight worth.entry)) }
{
    Ok(negated(worth.get())?)
}

/// `-` of a value.
fn negation_of(worth: Worth<'_>) -> Result<Value, Halt>
    ensures { Gives result (negation_of (weight worth.entry)) }
{
    Ok(negation(worth.get())?)
}

/// What an operator gives of two values.
fn two_of(alloc: Global, op: Op, left: &Value, right: Worth<'_>) -> Result<Value, Halt>
    ensures { Gives result (two_of op left.now (weight right.entry)) }
{
    two(alloc, op, left, right.get())
}

/// What an operator gives of a value and of an expression, which has its turn only where the value does not decide.
#[cycle(weigh)]
fn weigh_right<E: Variables>(
    alloc: Global,
    columns: &List<List<Option<usize>>>,
    environment: &E,
    op: Op,
    left: &Value,
    right: &Term,
) -> Result<Value, Halt>
    ensures { Gives result (apply op left.now (worth_of columns.now right.now (E.environment environment.now))) }
{
    match op {
        Op::Or => {
            if flag(left)? {
                return Ok(Value::Bool(true));
            }
            truth_of(weigh(alloc, columns, environment, right)?)
        }
        Op::And => {
            if !flag(left)? {
                return Ok(Value::Bool(false));
            }
            truth_of(weigh(alloc, columns, environment, right)?)
        }
        _ => two_of(alloc, op, left, weigh(alloc, columns, environment, right)?),
    }
}

/// What an operator gives of a value, which is let go, and of an expression.
#[cycle(weigh)]
fn weigh_two<E: Variables>(
    alloc: Global,
    columns: &List<List<Option<usize>>>,
    environment: &E,
    op: Op,
    left: Worth<'_>,
    right: &Term,
) -> Result<Value, Halt>
    ensures { Gives result (apply op (weight left.entry) (worth_of columns.now right.now (E.environment environment.now))) }
{
    weigh_right(alloc, columns, environment, op, left.get(), right)
}

/// The value of an expression, in what it is evaluated in. A value that stands in the expression, in a variable
/// or in a row is not copied.
#[cycle(weigh)]
pub fn weigh<'a, E: Variables>(
    alloc: Global,
    columns: &List<List<Option<usize>>>,
    environment: &'a E,
    term: &'a Term,
) -> Result<Worth<'a>, Halt>
    ensures { Weighs result (worth_of columns.now term.now (E.environment environment.now)) }
{
    match term {
        Term::Value(value) => Ok(Worth::Lent(value)),
        Term::Var(slot) => Ok(Worth::Lent(plain_value(environment, *slot)?)),
        Term::Field { slot, column } => {
            Ok(Worth::Lent(field_value(columns, environment, *slot, *column)?))
        }
        _ => Ok(Worth::Made(eval_any(alloc, columns, environment, term)?)),
    }
}

/// The value of any expression, in memory of its own.
#[cycle(weigh)]
fn eval_any<E: Variables>(
    alloc: Global,
    columns: &List<List<Option<usize>>>,
    environment: &E,
    term: &Term,
) -> Result<Value, Halt>
    ensures { Gives result (worth_of columns.now term.now (E.environment environment.now)) }
{
    match term {
        Term::Value(value) => copied(alloc, value),
        Term::Var(slot) => copied(alloc, plain_value(environment, *slot)?),
        Term::Field { slot, column } => {
            copied(alloc, field_value(columns, environment, *slot, *column)?)
        }
        Term::Now => Ok(Value::Int(environment.time())),
        Term::Not(inner) => not_of(weigh(alloc, columns, environment, inner.get())?),
        Term::Neg(inner) => negation_of(weigh(alloc, columns, environment, inner.get())?),
        Term::Two { op, left, right } => {
            if let Some(holds) = quick_test(columns, environment, term) {
                return Ok(Value::Bool(holds));
            }
            let left = weigh(alloc, columns, environment, left.get())?;
            weigh_two(alloc, columns, environment, *op, left, right.get())
        }
    }
}

/// The value of an expression, in memory of its own. A number, or a comparison of two, is looked for once for the whole of it and not
/// again for each part, so that the work grows with the length of the expression alone.
fn eval_deep<E: Variables>(
    alloc: Global,
    columns: &List<List<Option<usize>>>,
    environment: &E,
    term: &Term,
) -> Result<Value, Halt>
    ensures { Gives result (worth_of columns.now term.now (E.environment environment.now)) }
{
    if let Some(number) = deep_number(columns, environment, term) {
        return Ok(Value::Int(number));
    }
    if let Some(holds) = deep_test(columns, environment, term) {
        return Ok(Value::Bool(holds));
    }
    eval_any(alloc, columns, environment, term)
}

/// The value of an expression, in memory of its own. Numbers that are leaves, and operators between two, are looked for first.
pub fn eval<E: Variables>(
    alloc: Global,
    columns: &List<List<Option<usize>>>,
    environment: &E,
    term: &Term,
) -> Result<Value, Halt>
    ensures { Gives result (worth_of columns.now term.now (E.environment environment.now)) }
{
    if let Some(number) = quick_number(columns, environment, term) {
        return Ok(Value::Int(number));
    }
    if let Some(holds) = quick_test(columns, environment, term) {
        return Ok(Value::Bool(holds));
    }
    eval_deep(alloc, columns, environment, term)
}

/// The list of no items, with memory for a number of them.
fn with_room<T: Drop>(alloc: Global, room: usize) -> Result<List<T>, NoMemory>
    ensures { IfOk result (λ made. made ≡ []) }
{
    let items = Vec::with_capacity(alloc, room)?;
    Ok(List::from_vec(items))
}

/// The values of expressions, from the left.
pub fn eval_all<E: Variables>(
    alloc: Global,
    columns: &List<List<Option<usize>>>,
    environment: &E,
    terms: &[Term],
) -> Result<List<Value>, Halt>
    ensures { Gives result (worths_of columns.now terms.now (E.environment environment.now)) }
{
    let mut values = with_room(alloc, terms.len())?;
    for term in terms {
        let value = eval(alloc, columns, environment, term)?;
        values.push(value)?;
    }
    Ok(values)
}

/// The row of the values of expressions, from the left.
pub fn eval_row<E: Variables>(
    alloc: Global,
    columns: &List<List<Option<usize>>>,
    environment: &E,
    terms: &[Term],
) -> Result<Row, Halt>
    ensures { Gives result (worths_of columns.now terms.now (E.environment environment.now)) }
{
    let mut made = RowMaker::new(alloc);
    for term in terms {
        let value = eval(alloc, columns, environment, term)?;
        made.push(value)?;
    }
    let row = made.finish(alloc)?;
    Ok(row)
}

/// The key of the value of one expression, which mostly is a leaf that is a number.
fn eval_one<E: Variables>(
    alloc: Global,
    columns: &List<List<Option<usize>>>,
    environment: &E,
    term: &Term,
) -> Result<Key, Halt>
    ensures { Gives result (worths_of columns.now (term.now ∷ []) (E.environment environment.now)) }
{
    if let Some(number) = leaf_number(columns, environment, term) {
        return Ok(Key::of(Value::Int(number)));
    }
    let value = eval_deep(alloc, columns, environment, term)?;
    Ok(Key::of(value))
}

/// The key of the values of expressions, from the left.
pub fn eval_key<E: Variables>(
    alloc: Global,
    columns: &List<List<Option<usize>>>,
    environment: &E,
    terms: &[Term],
) -> Result<Key, Halt>
    ensures { Gives result (worths_of columns.now terms.now (E.environment environment.now)) }
{
    match terms.split_first() {
        Some((term, rest)) if rest.is_empty() => eval_one(alloc, columns, environment, term),
        _ => {
            let values = eval_all(alloc, columns, environment, terms)?;
            let key = Key::from_list(values)?;
            Ok(key)
        }
    }
}

/// The value of an end of a span, where it is given.
pub fn eval_end<E: Variables>(
    alloc: Global,
    columns: &List<List<Option<usize>>>,
    environment: &E,
    end: &Option<Term>,
) -> Result<Option<Value>, Halt>
    ensures { Gives result (end_worth columns.now end.now (E.environment environment.now)) }
{
    match end {
        None => Ok(None),
        Some(term) => {
            let value = eval(alloc, columns, environment, term)?;
            Ok(Some(value))
        }
    }
}

fn eval_setting<E: Variables>(
    alloc: Global,
    columns: &List<List<Option<usize>>>,
    environment: &E,
    setting: &Setting,
) -> Result<(usize, Value), Halt>
    ensures { Gives result (set_worth columns.now setting.now (E.environment environment.now)) }
{
    match setting.column {
        None => Err(Halt::Stop(Stop::IllTyped)),
        Some(column) => {
            if let Some(number) = quick_number(columns, environment, &setting.value) {
                return Ok((column, Value::Int(number)));
            }
            let value = eval_deep(alloc, columns, environment, &setting.value)?;
            Ok((column, value))
        }
    }
}

/// The columns that an update sets, with their values, from the left.
pub fn eval_settings<E: Variables>(
    alloc: Global,
    columns: &List<List<Option<usize>>>,
    environment: &E,
    settings: &[Setting],
) -> Result<List<(usize, Value)>, Halt>
    ensures { Gives result (sets_worth columns.now settings.now (E.environment environment.now)) }
{
    let mut values = with_room(alloc, settings.len())?;
    for setting in settings {
        let value = eval_setting(alloc, columns, environment, setting)?;
        values.push(value)?;
    }
    Ok(values)
}
