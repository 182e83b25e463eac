//! What a read covers of any row, also of one that does not fit.

ghost use Rattle.std.specs.Prelude.{◌≡◌, ◌&&◌, IfOk, length, map};
ghost use Rattle.rel_base.specs.Row.{value_at, is_from, is_up_to};
ghost use Rattle.rel_base.specs.Access.{covers_row};
ghost use Rattle.rel_base.specs.Schema.{key_of_row};

use rel_base::access::is_between;
use rel_base::{Key, NoMemory, Read, Row, TableDef, Twin, Value};
use std::alloc::Global;

/// The value of a row in a column, where it has one, and else 0.
fn value_or_zero(alloc: Global, row: &Row, column: u32) -> Result<Value, NoMemory>
    ensures { IfOk result (λ value. value ≡ value_at row.now column) }
{
    match row.get(column as usize) {
        None => Ok(Value::Int(0)),
        Some(value) => Ok(value.copy(alloc)?),
    }
}

/// The key of a row: its values in the key columns.
pub fn key_by(alloc: Global, def: &TableDef, row: &Row) -> Result<Key, NoMemory>
    ensures { IfOk result (λ key. key ≡ key_of_row def.now row.now) }
{
    let mut key = Key::new();
    for column in def.key.as_slice() {
        let value = value_or_zero(alloc, row, *column)?;
        key = key.with(alloc, value)?;
    }
    Ok(key)
}

/// Whether a read covers a row of its table.
pub fn is_covered(alloc: Global, def: &TableDef, read: &Read, row: &Row) -> Result<bool, NoMemory>
    ensures { IfOk result (λ covers. covers ≡ covers_row def.now read.now row.now) }
{
    match read {
        Read::Point { key, .. } => {
            let found = key_by(alloc, def, row)?;
            Ok(found.cmp(key).is_eq())
        }
        Read::Span {
            column,
            low,
            high,
            ..
        } => {
            let value = value_or_zero(alloc, row, *column)?;
            Ok(is_between(&value, low, high))
        }
    }
}
