//! The tables at a height, as lists of rows.

ghost use Rattle.std.specs.Prelude.{◌≡◌, ◌<◌, ◌^◌, IfOk, List, Some, length, map, slice_get, true};
ghost use Rattle.node_model.specs.Fold.{all_rows, table_rows};
ghost use Rattle.rel_base.specs.Access.{ReadFits, covers_row, read_table};
ghost use Rattle.rel_base.specs.Tables.{tables_at};
ghost use Rattle.rel_base.specs.declared.value.Value.{Value};

use node_model::TableRows;
use rel_base::{Key, List, NoMemory, Read, Row, Seen, TableDef};
use row_sets::Versions;
use std::alloc::Global;

// A read of the table of a number that covers each of its rows: the span of the first key column without ends, or, in a table without
// a key column, the point of the empty key.
fn read_of_all(number: u32, def: &TableDef) -> Read
    ensures table { read_table result ≡ number }
    ensures fits { ReadFits def.now result }
    ensures covers { (row : List Value) → covers_row def.now result row ≡ true }
{
    match def.key.as_slice() {
        [column, ..] => Read::Span {
            table: number,
            column: *column,
            low: None,
            high: None,
        },
        [] => Read::Point {
            table: number,
            key: Key::new(),
        },
    }
}

// The rows, without the places of their writers.
fn rows_alone(alloc: Global, seen: List<Seen>) -> Result<List<Row>, NoMemory>
    ensures { IfOk result (λ rows. rows ≡ map (λ one. one.row) seen) }
{
    let mut rows = List::new(alloc);
    for one in seen.into_vec() {
        rows.push(one.row)?;
    }
    Ok(rows)
}

// The rows of the table of a number after the block of a height.
fn list_table<V: Versions>(
    alloc: Global,
    versions: &V,
    number: u32,
    def: &TableDef,
    height: u64,
) -> Result<TableRows, NoMemory>
    requires { slice_get (V.tables versions.now) number ≡ Some def.now }
    ensures { IfOk result (λ made. made ≡ table_rows (tables_at height (V.history versions.now)) number) }
{
    let read = read_of_all(number, def);
    let seen = versions.visible(height, &read)?;
    Ok(TableRows {
        table: number,
        rows: rows_alone(alloc, seen)?,
    })
}

/// The rows of each table after the block of a height, in declaration order.
pub fn list_tables<V: Versions>(
    alloc: Global,
    versions: &V,
    tables: &[TableDef],
    height: u64,
) -> Result<List<TableRows>, NoMemory>
    requires few { length tables.now < 2 ^ 32 }
    requires declared { V.tables versions.now ≡ tables.now }
    ensures { IfOk result (λ made. made ≡ all_rows (tables_at height (V.history versions.now)) 0 tables.now) }
{
    let mut listed = List::new(alloc);
    for (number, def) in tables.iter().enumerate() {
        listed.push(list_table(alloc, versions, number as u32, def, height)?)?;
    }
    Ok(listed)
}
