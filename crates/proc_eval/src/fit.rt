//! Values, reads and rows that fit their table.

ghost use Rattle.std.specs.Prelude.{◌≡◌, ◌==◌, ◌&&◌, cond, IfOk, map, take, Some, None};
ghost use Rattle.std.specs.List.{list_any};
ghost use Rattle.rel_base.specs.Schema.{kind_at, key_of_row, span_columns};
ghost use Rattle.rel_base.specs.Row.{value_at};
ghost use Rattle.rel_base.specs.Value.{key_eq, value_eq};
ghost use Rattle.proc_syntax.specs.Values.{found, has_kind, have_kinds};
ghost use Rattle.proc_syntax.specs.Meaning.{end_has, span_of, row_fits, key_for};
ghost use Rattle.proc_eval.specs.Gives.{Gives};

use crate::halt::Halt;
use proc_syntax::Stop;
use rel_base::{Column, Key, Kind, NoMemory, Read, Row, TableDef, Value, key_of};
use std::alloc::Global;

/// Whether a value has a kind.
pub fn has_kind(kind: Kind, value: &Value) -> bool
    ensures { result ≡ has_kind kind value.now }
{
    match (kind, value) {
        (Kind::Int, Value::Int(_)) => true,
        (Kind::Text, Value::Text(_)) => true,
        (Kind::Bool, Value::Bool(_)) => true,
        (Kind::Bytes, Value::Bytes(_)) => true,
        _ => false,
    }
}

/// Whether there is one value of its kind for each column, in order.
pub fn fit_columns(columns: &[Column], values: &[Value]) -> bool
    ensures { result ≡ have_kinds (map (λ column. column.kind) columns.now) values.now }
{
    match (columns.split_first(), values.split_first()) {
        (None, None) => true,
        (Some((column, columns)), Some((value, values))) => has_kind(column.kind, value)
            && fit_columns(columns, values),
        _ => false,
    }
}

/// The kind of a column of a table.
pub fn kind_of_column(def: &TableDef, column: u32) -> Kind
    ensures { result ≡ kind_at def.now column }
{
    match def.columns.get(column as usize) {
        None => Kind::Int,
        Some(column) => column.kind,
    }
}

/// Whether there is one value of its kind for each of some columns, in order.
pub fn fit_numbers(def: &TableDef, numbers: &[u32], values: &[Value]) -> bool
    ensures { result ≡ have_kinds (map (kind_at def.now) numbers.now) values.now }
{
    match (numbers.split_first(), values.split_first()) {
        (None, None) => true,
        (Some((number, numbers)), Some((value, values))) => has_kind(
            kind_of_column(def, *number),
            value,
        ) && fit_numbers(def, numbers, values),
        _ => false,
    }
}

/// Whether a row has one value of its kind for each column.
pub fn fits_table(def: &TableDef, row: &Row) -> bool
    ensures { result ≡ row_fits def.now row.now }
{
    fit_columns(def.columns.as_slice(), row.as_slice())
}

/// Whether an end of a span, where it is given, has a kind.
pub fn fits_end(kind: Kind, end: &Option<Value>) -> bool
    ensures { result ≡ end_has kind end.now }
{
    match end {
        None => true,
        Some(value) => has_kind(kind, value),
    }
}

/// Whether a key has one value of its kind for each key column.
pub fn fits_key(def: &TableDef, key: &Key) -> bool
    ensures { result ≡ have_kinds (map (kind_at def.now) def.now.key) key.now }
{
    fit_numbers(def, def.key.as_slice(), key.as_slice())
}

/// A number among some.
fn find_number(numbers: &[u32], wanted: usize) -> Option<u32>
    ensures { result ≡ cond (list_any (λ number. number == wanted) numbers.now) (Some wanted) None }
{
    for number in numbers {
        if *number as usize == wanted {
            return Some(*number);
        }
    }
    None
}

/// The first of some numbers, where there is one.
fn first_of(numbers: &[u32]) -> &[u32]
    ensures { result.now ≡ take 1 numbers.now }
{
    &numbers[..numbers.len().min(1)]
}

/// A column, where a span may name it.
pub fn span_column(def: &TableDef, column: usize) -> Option<u32>
    ensures { result ≡ cond (list_any (λ c. c == column) (span_columns def.now)) (Some column) None }
{
    match find_number(first_of(def.key.as_slice()), column) {
        Some(column) => Some(column),
        None => find_number(def.index.as_slice(), column),
    }
}

/// The read of a span on a column, where the column may be named and the ends have its kind.
pub fn span_on(
    def: &TableDef,
    table: u32,
    column: usize,
    low: Option<Value>,
    high: Option<Value>,
) -> Option<Read>
    ensures { result ≡ span_of def.now table (Some column) low high }
{
    let column = span_column(def, column)?;
    let kind = kind_of_column(def, column);
    if fits_end(kind, &low) && fits_end(kind, &high) {
        Some(Read::Span {
            table,
            column,
            low,
            high,
        })
    } else {
        None
    }
}

/// The span read on a column that a span may name, between ends of its kind.
pub fn span_read(
    def: &TableDef,
    table: u32,
    column: Option<usize>,
    low: Option<Value>,
    high: Option<Value>,
) -> Result<Read, Stop>
    ensures { result ≡ found (span_of def.now table column low high) }
{
    match column {
        None => Err(Stop::IllTyped),
        Some(column) => match span_on(def, table, column, low, high) {
            None => Err(Stop::IllTyped),
            Some(read) => Ok(read),
        },
    }
}

/// The key of a row, where the row fits.
pub fn key_for(alloc: Global, def: &TableDef, row: &Row) -> Result<Option<Key>, NoMemory>
    ensures { IfOk result (λ key. key ≡ key_for def.now row.now) }
{
    if fits_table(def, row) {
        let key = key_of(alloc, def, row)?;
        Ok(Some(key))
    } else {
        Ok(None)
    }
}

/// The key of a row that fits.
pub fn key_of_fit(alloc: Global, def: &TableDef, row: &Row) -> Result<Key, Halt>
    ensures { Gives result (found (key_for def.now row.now)) }
{
    match key_for(alloc, def, row)? {
        Some(key) => Ok(key),
        None => Err(Halt::Stop(Stop::IllTyped)),
    }
}

/// Whether a row has a value in a column.
fn has_value(row: &Row, column: u32, value: &Value) -> bool
    ensures { result ≡ value_eq (value_at row.now column) value.now }
{
    match row.get(column as usize) {
        None => Value::Int(0) == *value,
        Some(found) => found == value,
    }
}

/// Whether a row has some values in some columns, one in each, in order.
#[tactic(auto, using(crate::proofs::Keyed::key_eq_next))]
fn has_values(row: &Row, columns: &[u32], values: &[Value]) -> bool
    ensures { result ≡ key_eq (map (value_at row.now) columns.now) values.now }
{
    match (columns.split_first(), values.split_first()) {
        (None, None) => true,
        (Some((column, columns)), Some((value, values))) => has_value(row, *column, value)
            && has_values(row, columns, values),
        _ => false,
    }
}

/// Whether a row fits and has a key. The key is compared with the row's own values, so it takes no memory.
pub fn is_under(def: &TableDef, key: &Key, row: &Row) -> bool
    ensures { result ≡ (row_fits def.now row.now && key_eq (key_of_row def.now row.now) key.now) }
{
    fits_table(def, row) && has_values(row, def.key.as_slice(), key.as_slice())
}
