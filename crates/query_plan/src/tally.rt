//! What is kept of the items of a group, in place of its tuples.

ghost use Rattle.std.specs.Prelude.{◌≡◌, All, IfOk, OnOk, map, pos};
ghost use Rattle.std.specs.Option.{unwrap_or};
ghost use Rattle.query_plan.specs.Answer.{all_of, alone, int_of, int_value};
ghost use Rattle.query_plan.specs.Cells.{IsEarly, cell_value};
ghost use Rattle.query_plan.specs.Tallies.{greater, lesser, next_at, next_tallies, next_tally, tally_of, value_of};

use crate::cell::{Cell, at, cell_cmp, cell_copy};
use crate::select::Item;
use rel_base::{List, NoMemory, Row, Seen, Twin, Value};
use std::alloc::Global;

/// What is kept of an item of a group.
#[derive(Drop)]
pub enum Tally {
    Plain(Value),
    Count(u64),
    Sum(i128),
    Min(Value),
    Max(Value),
}

/// The number of an int, and 0 of another value.
fn int_of(cell: Cell<'_>) -> i64
    ensures { result ≡ int_of (cell_value cell.entry) }
{
    match cell {
        Cell::Number(number) => number,
        Cell::Stored(value) => match value {
            Value::Int(number) => *number,
            _ => 0,
        },
    }
}

/// The tally of an item of a group of one tuple.
fn start(alloc: Global, item: Item, tuple: &[Seen]) -> Result<Tally, NoMemory>
    requires { All IsEarly tuple.now }
    ensures { IfOk result (λ tally. tally ≡ tally_of (alone tuple.now) item) }
{
    match item {
        Item::Plain(col) => Ok(Tally::Plain(cell_copy(alloc, at(tuple, col))?)),
        Item::Count => Ok(Tally::Count(1)),
        Item::Sum(col) => Ok(Tally::Sum(i128::from(int_of(at(tuple, col))))),
        Item::Min(col) => Ok(Tally::Min(cell_copy(alloc, at(tuple, col))?)),
        Item::Max(col) => Ok(Tally::Max(cell_copy(alloc, at(tuple, col))?)),
    }
}

/// A value that is less than the least one so far, where it is.
fn lesser(alloc: Global, least: &Value, cell: Cell<'_>) -> Result<Option<Value>, NoMemory>
    ensures { IfOk result (λ value. unwrap_or value least.now ≡ lesser least.now (cell_value cell.entry)) }
{
    if cell_cmp(cell, Cell::Stored(least)).is_lt() {
        Ok(Some(cell_copy(alloc, cell)?))
    } else {
        Ok(None)
    }
}

/// A value that is greater than the greatest one so far, where it is.
fn greater(alloc: Global, greatest: &Value, cell: Cell<'_>) -> Result<Option<Value>, NoMemory>
    ensures { IfOk result (λ value. unwrap_or value greatest.now ≡ greater greatest.now (cell_value cell.entry)) }
{
    if cell_cmp(Cell::Stored(greatest), cell).is_lt() {
        Ok(Some(cell_copy(alloc, cell)?))
    } else {
        Ok(None)
    }
}

/// What a tally is with one tuple more, where it is another. That a count or a sum outgrows its type can not happen below 2 ^ 63 tuples.
fn next(alloc: Global, tally: &Tally, item: Item, tuple: &[Seen]) -> Result<Option<Tally>, NoMemory>
    requires { All IsEarly tuple.now }
    ensures { IfOk result (λ next. unwrap_or next tally.now ≡ next_tally tuple.now tally.now item) }
{
    match (tally, item) {
        (Tally::Plain(_), Item::Plain(_)) => Ok(None),
        (Tally::Count(count), Item::Count) => match count.checked_add(1) {
            None => Err(NoMemory),
            Some(count) => Ok(Some(Tally::Count(count))),
        },
        (Tally::Sum(sum), Item::Sum(col)) => {
            match sum.checked_add(i128::from(int_of(at(tuple, col)))) {
                None => Err(NoMemory),
                Some(sum) => Ok(Some(Tally::Sum(sum))),
            }
        }
        (Tally::Min(least), Item::Min(col)) => match lesser(alloc, least, at(tuple, col))? {
            None => Ok(None),
            Some(value) => Ok(Some(Tally::Min(value))),
        },
        (Tally::Max(greatest), Item::Max(col)) => match greater(alloc, greatest, at(tuple, col))? {
            None => Ok(None),
            Some(value) => Ok(Some(Tally::Max(value))),
        },
        _ => Err(NoMemory),
    }
}

/// The tallies of a group of one tuple.
pub fn start_all(alloc: Global, items: &[Item], tuple: &[Seen]) -> Result<List<Tally>, NoMemory>
    requires { All IsEarly tuple.now }
    ensures { IfOk result (λ tallies. tallies ≡ map (tally_of (alone tuple.now)) items.now) }
{
    let mut tallies = List::new(alloc);
    for item in items {
        let tally = start(alloc, *item, tuple)?;
        tallies.push(tally)?;
    }
    Ok(tallies)
}

/// The tally of a place, counted from 0, is brought to one tuple more.
fn next_at(
    alloc: Global,
    tallies: &mut List<Tally>,
    at: usize,
    item: Item,
    tuple: &[Seen],
) -> Result<(), NoMemory>
    requires { All IsEarly tuple.now }
    ensures { OnOk result (tallies.new ≡ next_at tuple.now item at tallies.old) }
{
    let Some(tally) = tallies.get(at) else {
        return Ok(());
    };
    if let Some(next) = next(alloc, tally, item, tuple)? {
        let _ = tallies.replace(at, next);
    }
    Ok(())
}

/// The tallies of a group are brought to one tuple more.
pub fn next_all(
    alloc: Global,
    tallies: &mut List<Tally>,
    items: &[Item],
    tuple: &[Seen],
) -> Result<(), NoMemory>
    requires { All IsEarly tuple.now }
    ensures { OnOk result (tallies.new ≡ next_tallies tuple.now tallies.old items.now) }
{
    for (i, item) in items.iter().enumerate() {
        next_at(alloc, tallies, i, *item, tuple)?;
    }
    Ok(())
}

/// A number as a value, where it is an int.
pub fn int_value(number: i128) -> Option<Value>
    ensures { result ≡ int_value number }
{
    match i64::try_from(number) {
        Ok(number) => Some(Value::Int(number)),
        Err(_) => None,
    }
}

/// A count as a value. That it is no int can not happen below 2 ^ 63 tuples.
fn count_value(count: u64) -> Result<Value, NoMemory>
    ensures { IfOk result (λ value. value ≡ Value.Int (pos count)) }
{
    match i64::try_from(count) {
        Ok(count) => Ok(Value::Int(count)),
        Err(_) => Err(NoMemory),
    }
}

/// The value of a tally, where it is one.
fn value_of(tally: Tally) -> Result<Option<Value>, NoMemory>
    ensures { IfOk result (λ value. value ≡ value_of tally) }
{
    match tally {
        Tally::Plain(value) => Ok(Some(value)),
        Tally::Count(count) => Ok(Some(count_value(count)?)),
        Tally::Sum(sum) => Ok(int_value(sum)),
        Tally::Min(value) => Ok(Some(value)),
        Tally::Max(value) => Ok(Some(value)),
    }
}

/// The row of a group, where each tally is a value.
pub fn row_of(alloc: Global, tallies: List<Tally>) -> Result<Option<Row>, NoMemory>
    ensures { IfOk result (λ row. row ≡ all_of value_of tallies) }
{
    let mut values = List::new(alloc);
    for tally in tallies.into_vec() {
        match value_of(tally)? {
            None => return Ok(None),
            Some(value) => values.push(value)?,
        }
    }
    let row = Row::new(values)?;
    Ok(Some(row))
}
